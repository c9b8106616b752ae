//! The words in which the program tells of refusals and of lines that it cannot read, where they are not those of
//! `console`.

use console::{Failure, Reason, Wanted};
use market::{Refusal, Rule};
use std::fmt;

/// Why the program ends without doing what was asked.
// Displays by hand round the values of `console`, which have derived texts: this program has words of its own for some.
#[derive(Drop)]
pub struct Worded(pub Failure);

impl fmt::Display for Worded {
    fn fmt<W: fmt::Write>(&self, f: &mut fmt::Formatter<W>) -> fmt::Result {
        match &self.0 {
            Failure::Line(number, reason) => write!(f, "line {number}: {}", Unreadable(reason)),
            Failure::Sample(refusal) => {
                write!(f, "a curve to measure is refused: {}", Meant(*refusal))
            }
            failure => write!(f, "{failure}"),
        }
    }
}

/// Why a line cannot be read.
#[derive(Clone, Copy)]
struct Unreadable<'a>(&'a Reason);

impl fmt::Display for Unreadable<'_> {
    fn fmt<W: fmt::Write>(&self, f: &mut fmt::Formatter<W>) -> fmt::Result {
        match self.0 {
            Reason::IsNo(word, wanted) => write!(f, "\"{word}\" is no {}", Expected(*wanted)),
            Reason::Lacks(wanted) => {
                write!(f, "there is no {} where one belongs", Expected(*wanted))
            }
            Reason::LimitsRefused(refusal) => {
                write!(f, "the limits are refused: {}", Meant(*refusal))
            }
            reason => write!(f, "{reason}"),
        }
    }
}

/// What was expected of a word.
#[derive(Clone, Copy)]
struct Expected(Wanted);

impl fmt::Display for Expected {
    fn fmt<W: fmt::Write>(&self, f: &mut fmt::Formatter<W>) -> fmt::Result {
        match self.0 {
            Wanted::Price => write!(f, "price"),
            Wanted::Quantity => write!(f, "quantity"),
            Wanted::CapNumber => write!(f, "number of lots for a cap"),
            wanted => write!(f, "{wanted}"),
        }
    }
}

/// A refusal as it is shown: its number, its place and what its rule says.
#[derive(Clone, Copy)]
pub struct Meant(pub Refusal);

impl From<Refusal> for Meant {
    fn from(refusal: Refusal) -> Meant {
        Meant(refusal)
    }
}

impl fmt::Display for Meant {
    fn fmt<W: fmt::Write>(&self, f: &mut fmt::Formatter<W>) -> fmt::Result {
        let Meant(Refusal { rule, place }) = *self;
        write!(f, "{} {place} {}", rule.number(), meaning(rule))
    }
}

/// What was wrong where a rule was broken.
fn meaning(rule: Rule) -> &'static str {
    match rule {
        Rule::Limits => "the lowest price is not below the highest, or that is above 10,000,000",
        Rule::Identity => "the bid's number or its participant is out of bounds",
        Rule::Form =>
            "the form is broken: place 99 is a bad count, any other the first bad level or hour",
        Rule::Price => "the price lies outside the limits",
        Rule::NumberStands => "the number stands already",
        Rule::MostBids => "the participant has the most bids of that kind",
        Rule::Hour => "there is no such hour, or the participant has a bid in it",
        Rule::RegisterFull => "the register is full",
        Rule::Parent => "the parent does not stand, or is of another participant or direction",
        Rule::Family => "the family is too large",
        Rule::NotStanding => "the number does not stand",
        Rule::ChildStands => "a child of the block stands",
        Rule::SumReach => "the reaches of the two parts total above 1,000,000",
        Rule::Register => "a register or the clearing record is not lawful",
        Rule::ListLength => "a list has the wrong length, or the record is too short",
        Rule::ClearingPrice => "a clearing price lies outside the limits",
        Rule::Mark => "a mark is neither 0 nor 1",
        Rule::Start => "the start is not allowed",
        Rule::RejectedParent => "a block is accepted and its parent is rejected",
        Rule::Margin => "a match lies outside its margin",
        Rule::Balance => "an hour does not balance",
        Rule::Cut => "a match breaks the rules of a cut",
        Rule::WronglyRejected => "a block is wrongly rejected",
        Rule::WronglyUnstarted => "a flexible bid is wrongly without a start",
        Rule::LinesHour => "there is no such hour to write lines for",
        Rule::LinesLeft => "too few lines are left",
    }
}
