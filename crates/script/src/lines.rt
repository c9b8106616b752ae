//! What the lines of a call script say.

use bids::{BlockBid, FlexibleBid, HourlyBid};
use docket::Opening;
use merit::Draft;
use std::str::FromStr;

/// A kind of bid, as a word of a script names it.
// Beside `register::RegisterKind`, and not that: the trait by which a word is read is written for a type of this crate.
#[derive(Clone, Copy)]
pub enum Kind {
    Hourly,
    Block,
    Flexible,
}

/// That a word is no kind of bid.
#[derive(Clone, Copy)]
pub struct UnknownKind;

impl FromStr for Kind {
    ghost use Rattle.script.specs.Kinds.{ReadsKind};

    type Err = UnknownKind;

    ghost from_str_gives = { ReadsKind };

    fn from_str(word: &str) -> Result<Kind, UnknownKind> {
        match word {
            "hourly" => Ok(Kind::Hourly),
            "block" => Ok(Kind::Block),
            "flexible" => Ok(Kind::Flexible),
            _ => Err(UnknownKind),
        }
    }
}

/// A part of a proposal to come.
#[derive(Drop)]
pub enum ProposalPart {
    Prices([u32; 24]),
    Matches(Vec<i32>),
    Marks(Vec<u8>),
    Starts(Vec<Option<u8>>),
}

/// Which settlement lines are asked for: those of an hour, from a line on into a table of so many lines, or into one
/// that is long enough.
#[derive(Clone, Copy)]
pub struct Extract {
    pub hour: u8,
    pub window: Option<Window>,
}

/// A table of lines that is written from a line on.
#[derive(Clone, Copy)]
pub struct Window {
    pub from: usize,
    pub length: usize,
}

/// What a line says.
#[derive(Drop)]
pub enum Line {
    Open(Opening),
    EnterHourly(HourlyBid<Draft>),
    EnterBlock(BlockBid),
    EnterFlexible(FlexibleBid),
    Withdraw(Kind, u16),
    Close,
    Set(ProposalPart),
    Propose,
    Lines(Extract),
}
