//! Curves as they are written, and how they are made.

ghost use Rattle.merit.specs.Drafts.{MadePart, MadeDraft};

use curve::{PriceCurve, ValuedCurve};
use levels::{Flat, Level, LevelCurve, Linear, Stepped};
use market::Refusal;
use piles::{Cap, Sum};

/// The curve of every bid: a cap over the sum of two curves given by levels.
pub type BidCurve = Cap<Sum<LevelCurve, LevelCurve>>;

/// One part of a curve, as it is written.
#[derive(Drop)]
pub enum Part {
    Linear(Vec<Level>),
    Stepped(Vec<Level>),
    Flat(i32),
}

// A `TryFrom` is no plainer than `make`, here and below: what it promises would stand in a ghost member and in no clause, and
// `draft.make()?` would read `BidCurve::try_from(&draft)?`.
impl Part {
    /// The curve that is written, or its refusal.
    pub fn make(&self) -> Result<LevelCurve, Refusal>
        ensures { MadePart self.now result }
    {
        match self {
            Part::Linear(levels) => Ok(LevelCurve::Linear(Linear::new(levels.as_slice())?)),
            Part::Stepped(levels) => Ok(LevelCurve::Stepped(Stepped::new(levels.as_slice())?)),
            Part::Flat(quantity) => Ok(LevelCurve::Flat(Flat::new(*quantity)?)),
        }
    }
}

/// A whole curve, as it is written.
#[derive(Drop)]
pub struct Draft {
    pub first: Part,
    pub second: Part,
    pub bought: u32,
    pub sold: u32,
}

impl Draft {
    /// The curve that is written, or the first refusal: of its first part, its second part or their sum.
    pub fn make(&self) -> Result<BidCurve, Refusal>
        ensures { MadeDraft self.now result }
    {
        let first = self.first.make()?;
        let second = self.second.make()?;
        let sum = Sum::new(first, second)?;
        Ok(Cap::new(sum, self.bought, self.sold))
    }
}
