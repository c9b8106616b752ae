//! What the lines of a day ask for.

use crate::lines::{Kind, Line};
use bids::HourlyBid;
use console::Failure;
use day::Call;
use docket::{Agenda, Subject};
use merit::Draft;

/// Adds what a line asks for to the agenda of a day, if anything.
pub fn add(agenda: &mut Agenda, number: usize, line: Line) -> Result<(), Failure> {
    match line {
        Line::Open(_) | Line::Set(_) => Ok(()),
        Line::Propose => agenda.ask(number, Subject::Verdict),
        Line::Lines(_) => agenda.ask(number, Subject::Settlement),
        Line::EnterHourly(draft) => add_hourly(agenda, number, &draft),
        Line::EnterBlock(bid) => agenda.add_call(number, Call::EnterBlock(bid)),
        Line::EnterFlexible(bid) => agenda.add_call(number, Call::EnterFlexible(bid)),
        Line::Withdraw(kind, bid) => agenda.add_call(number, withdrawal(kind, bid)),
        Line::Close => agenda.add_call(number, Call::Close),
    }
}

/// Adds an hourly bid: a call where its curve is made, and else the refusal of that.
fn add_hourly(agenda: &mut Agenda, number: usize, draft: &HourlyBid<Draft>) -> Result<(), Failure> {
    match draft.curve.make() {
        Ok(curve) => {
            let bid = HourlyBid {
                number: draft.number,
                participant: draft.participant,
                hour: draft.hour,
                curve,
            };
            agenda.add_call(number, Call::EnterHourly(bid))
        }
        Err(refusal) => agenda.ask(number, Subject::RefusedCurve(refusal)),
    }
}

/// The call that withdraws the bid of a number.
fn withdrawal<C>(kind: Kind, number: u16) -> Call<C> {
    match kind {
        Kind::Hourly => Call::WithdrawHourly(number),
        Kind::Block => Call::WithdrawBlock(number),
        Kind::Flexible => Call::WithdrawFlexible(number),
    }
}
