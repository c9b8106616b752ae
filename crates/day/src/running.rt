//! Whole runs of calls on one day.

ghost use Rattle.std.specs.Prelude.{Some};
ghost use Rattle.day.specs.Runs.{Runs, MovesOn};

use crate::calls::{Call, Step};
use crate::opening::open;
use crate::states::{Day, OpenDay};
use bids::{BlockBid, FlexibleBid, HourlyBid};
use curve::PriceCurve;
use market::Refusal;
use register::Tables;

/// Opens a day and makes the calls of a list on it, one after the other, each with the same tables. A call that the
/// state of the day does not have is not made. Each step gets what became of its call.
// The tables stay three parameters here and below: a call of an open day lends one of them mutably and two not, so a
// struct of the three would be made here and taken apart again before each call. The two prices are no `Limits` yet, as in
// `open`.
pub fn run<C: PriceCurve + Copy>(
    lowest: u32,
    highest: u32,
    hourly: &mut [HourlyBid<C>],
    blocks: &mut [BlockBid],
    flexible: &mut [FlexibleBid],
    steps: &mut [Step<C>],
) -> Result<Day<C>, Refusal>
    ensures { Runs (record { lowest = lowest; highest = highest }) steps.old steps.new (record { hourly = hourly.old; blocks = blocks.old; flexible = flexible.old }) (record { hourly = hourly.new; blocks = blocks.new; flexible = flexible.new }) result }
{
    let mut day = Day::Open(open(lowest, highest)?);
    for step in steps.iter_mut() {
        let (next, outcome) = make(day, hourly, blocks, flexible, step.call);
        day = next;
        step.outcome = outcome;
    }
    Ok(day)
}

/// Makes a call on a day, if its state has it.
fn make<C: PriceCurve + Copy>(
    day: Day<C>,
    hourly: &mut [HourlyBid<C>],
    blocks: &mut [BlockBid],
    flexible: &mut [FlexibleBid],
    call: Call<C>,
) -> (Day<C>, Option<Result<(), Refusal>>)
    ensures { MovesOn call day (record { hourly = hourly.old; blocks = blocks.old; flexible = flexible.old }) result.1 result.0 (record { hourly = hourly.new; blocks = blocks.new; flexible = flexible.new }) }
{
    match day {
        Day::Open(open) => {
            let (next, answer) = make_on_open(open, hourly, blocks, flexible, call);
            (next, Some(answer))
        }
        Day::Closed(closed) => (Day::Closed(closed), None),
    }
}

/// Makes a call on an open day.
fn make_on_open<C: PriceCurve + Copy>(
    mut day: OpenDay<C>,
    hourly: &mut [HourlyBid<C>],
    blocks: &mut [BlockBid],
    flexible: &mut [FlexibleBid],
    call: Call<C>,
) -> (Day<C>, Result<(), Refusal>)
    ensures { MovesOn call (Day.Open day) (record { hourly = hourly.old; blocks = blocks.old; flexible = flexible.old }) (Some result.1) result.0 (record { hourly = hourly.new; blocks = blocks.new; flexible = flexible.new }) }
{
    let answer = match call {
        Call::EnterHourly(bid) => day.enter_hourly(hourly, blocks, flexible, bid),
        Call::EnterBlock(bid) => day.enter_block(hourly, blocks, flexible, bid),
        Call::EnterFlexible(bid) => day.enter_flexible(hourly, blocks, flexible, bid),
        Call::WithdrawHourly(number) => day.withdraw_hourly(hourly, blocks, flexible, number),
        Call::WithdrawBlock(number) => day.withdraw_block(hourly, blocks, flexible, number),
        Call::WithdrawFlexible(number) => day.withdraw_flexible(hourly, blocks, flexible, number),
        Call::Close => {
            let tables = Tables {
                hourly,
                blocks,
                flexible,
            };
            return match day.close(tables) {
                Ok(closed) => (Day::Closed(closed), Ok(())),
                Err((back, refusal)) => (Day::Open(back), Err(refusal)),
            };
        }
    };
    (Day::Open(day), answer)
}
