//! Why the program ends without doing what was asked. These are enums, and not `anyhow::Error`: that keeps 120 bytes of a
//! message, and a word that is shown may be longer.

use crate::words::Told;
use market::Refusal;
use std::alloc::AllocError;
use std::{fmt, io};
use thiserror::Error;

/// What was expected of a word.
#[derive(Clone, Copy, Debug)]
pub enum Wanted {
    Price,
    Quantity,
    CapNumber,
    Level,
    Curve,
    Name,
    Call,
    Kind,
    Number,
    Participant,
    Parent,
    Hour,
    HourCount,
    Places,
    Match,
    Mark,
    Start,
    LineNumber,
    Of,
}

// By hand, since the derive that gives an error its text would make an error of what is expected.
impl fmt::Display for Wanted {
    /// What was expected, in words that follow "no".
    fn fmt<W: fmt::Write>(&self, f: &mut fmt::Formatter<W>) -> fmt::Result {
        f.write_str(match self {
            Wanted::Price => "price from 0 to 4294967295",
            Wanted::Quantity => "quantity from -2147483648 to 2147483647",
            Wanted::CapNumber => "number of lots for a cap from 0 to 4294967295",
            Wanted::Level => "level PRICE:QUANTITY",
            Wanted::Curve => "curve: linear, stepped or flat",
            Wanted::Name => "name of a bid",
            Wanted::Call =>
                "call: open, enter, withdraw, close, prices, matches, marks, starts, propose or lines",
            Wanted::Kind => "kind of bid: hourly, block or flexible",
            Wanted::Number => "number of a bid from 0 to 65535",
            Wanted::Participant => "participant from 0 to 65535",
            Wanted::Parent => "parent: a number from 0 to 65535, or - for none",
            Wanted::Hour => "hour from 0 to 255",
            Wanted::HourCount => "count of hours from 0 to 255",
            Wanted::Places => "count of places from 0 to 18446744073709551615",
            Wanted::Match => "match from -2147483648 to 2147483647",
            Wanted::Mark => "mark from 0 to 255",
            Wanted::Start => "start from 0 to 255, or - for none",
            Wanted::LineNumber => "number of lines from 0 to 18446744073709551615",
            Wanted::Of => "\"of\" and a count of lines",
        })
    }
}

/// Why a line cannot be read.
#[derive(Debug, Drop, Error)]
pub enum Reason {
    /// A word is not what is expected at its place.
    #[error("\"{0}\" is no {1}")]
    IsNo(String, Wanted),
    /// The line ends where something is expected.
    #[error("there is no {0} where one belongs")]
    Lacks(Wanted),
    /// A word comes after the end of what the line can hold.
    #[error("\"{0}\" comes after the end of the line's words")]
    Unexpected(String),
    /// The limits do not come first.
    #[error("the limits do not come first: limits PMIN PMAX")]
    NoLimits,
    /// The limits come a second time.
    #[error("the limits come a second time")]
    LimitsAgain,
    /// The limits are refused.
    #[error("the limits are refused: {}", Told(*.0))]
    LimitsRefused(Refusal),
    /// There is one curve too many.
    #[error("there are more than 4096 curves")]
    TooManyCurves,
    /// There are more quantities than a bid can have.
    #[error("there are more than {0} quantities")]
    TooManyQuantities(usize),
    /// No memory can hold the tables of a day.
    #[error("no memory can hold tables of these sizes")]
    Tables,
    /// There is no memory left for the line.
    #[error("there is no memory left")]
    Memory(#[from(alloc)] AllocError),
}

/// Why the program ends without doing what was asked.
#[derive(Debug, Drop, Error)]
pub enum Failure {
    /// A line of the input cannot be read.
    #[error("line {0}: {1}")]
    Line(usize, Reason),
    /// There is no such command.
    #[error("there is no command \"{0}\"")]
    Command(String),
    /// A command has a word too many.
    #[error("\"{0}\" is a word too many")]
    Excess(String),
    /// A curve or a bid to measure was refused.
    #[error("what is to be measured is refused: {}", Told(*.0))]
    Sample(#[from] Refusal),
    /// A file cannot be read.
    #[error("{0}: {1}")]
    File(String, io::Error),
    /// Reading or writing failed.
    #[error(transparent)]
    Stream(#[from] io::Error),
    /// There is no memory left.
    #[error("there is no memory left")]
    Memory(#[from(alloc)] AllocError),
}
