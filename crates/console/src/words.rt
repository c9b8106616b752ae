//! What each refusal means, in words.

use market::{BAD_COUNT, Refusal, Rule};
use std::fmt;

/// A refusal as it is shown: its number, its place and what it means.
#[derive(Clone, Copy)]
pub struct Told(pub Refusal);

impl From<Refusal> for Told {
    fn from(refusal: Refusal) -> Told {
        Told(refusal)
    }
}

impl fmt::Display for Told {
    fn fmt<W: fmt::Write>(&self, f: &mut fmt::Formatter<W>) -> fmt::Result {
        let Told(refusal) = *self;
        write!(
            f,
            "{} {} {}",
            refusal.rule.number(),
            refusal.place,
            meaning(refusal)
        )
    }
}

/// What was wrong where a call was refused.
fn meaning(refusal: Refusal) -> &'static str {
    match refusal.rule {
        Rule::Limits =>
            "the lowest price is not below the highest, or the highest is above 10,000,000",
        Rule::Identity => "a bid's number is 1 to 60,000, and its participant 1 to 999",
        Rule::Form if refusal.place == BAD_COUNT =>
            "a count of levels or hours, a window or a duration is out of bounds, or goes past the day",
        Rule::Form => "the level or hour at this place, from 0, breaks the form",
        Rule::Price => "the price lies outside the limits",
        Rule::NumberStands => "a bid of this number stands already",
        Rule::MostBids =>
            "the participant has as many as it may have: 24 hourly, 50 block, 6 flexible",
        Rule::Hour => "there is no such hour, or the participant has an hourly bid in it",
        Rule::RegisterFull => "the table is full",
        Rule::Parent => "the parent does not stand, or is of another participant or direction",
        Rule::Family =>
            "the family would exceed six blocks, three levels or three blocks on a lower level",
        Rule::NotStanding => "no bid of this number stands",
        Rule::ChildStands => "a child of the block stands: withdraw that first",
        Rule::SumReach => "the reaches of the two parts total above 1,000,000",
        Rule::Register =>
            "a table or the record is not lawful: 1 hourly, 2 block, 3 flexible, 4 record",
        Rule::ListLength =>
            "wrong length of matches (1), marks (2) or starts (3), or the record is too short (4)",
        Rule::ClearingPrice => "the price of this hour lies outside the limits",
        Rule::Mark => "the block's mark is neither 0 nor 1",
        Rule::Start => "the flexible bid may not start at this hour",
        Rule::RejectedParent => "the block is accepted and its parent is rejected",
        Rule::Margin => "the bid's match lies outside its margin",
        Rule::Balance => "the hour does not balance",
        Rule::Cut => "the bid's match breaks the rules of a cut",
        Rule::WronglyRejected => "the block is in the money, and must be accepted",
        Rule::WronglyUnstarted =>
            "the flexible bid is in the money at a start, and must be started",
        Rule::LinesHour => "there is no such hour",
        Rule::LinesLeft => "the table has too few lines left: this many are needed",
    }
}
