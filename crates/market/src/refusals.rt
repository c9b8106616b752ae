//! Refusals: which rule was broken, and where.

ghost use Rattle.std.specs.Prelude.{◌≡◌};
ghost use Rattle.market.specs.Numbers.{number};

/// The place of a refusal for a count, a first hour or a window that is not allowed.
pub const BAD_COUNT: u32 = 99;

/// The rule that a refused call broke.
#[derive(Clone, Copy, PartialEq, Eq, Debug)]
pub enum Rule {
    /// The limits of a day are not a lowest price below a highest one of at most 10,000,000.
    Limits = 1,
    /// A bid's number or participant is out of bounds.
    Identity = 2,
    /// The form of a curve, a block or a flexible bid is broken.
    Form = 3,
    /// A block's or flexible bid's price lies outside the limits.
    Price = 4,
    /// The number stands already.
    NumberStands = 5,
    /// The participant has the most bids of that kind.
    MostBids = 6,
    /// There is no such hour, or the participant has a bid in it.
    Hour = 7,
    /// The register is full.
    RegisterFull = 8,
    /// The parent does not stand, or is of another participant or direction.
    Parent = 9,
    /// The family is too large.
    Family = 10,
    /// The number does not stand.
    NotStanding = 11,
    /// A child of the block stands.
    ChildStands = 12,
    /// The reaches of the parts of a sum total above 1,000,000.
    SumReach = 13,
    /// A register or the clearing record is not lawful.
    Register = 14,
    /// A list of a proposal has the wrong length, or the record is too short.
    ListLength = 20,
    /// A price of a proposal lies outside the limits.
    ClearingPrice = 21,
    /// A mark of a proposal is neither 0 nor 1.
    Mark = 22,
    /// A start of a proposal is not allowed.
    Start = 23,
    /// A block is accepted and its parent is rejected.
    RejectedParent = 24,
    /// A match lies outside its margin.
    Margin = 25,
    /// An hour does not balance.
    Balance = 26,
    /// A match breaks the rules of a cut.
    Cut = 27,
    /// A block is wrongly rejected.
    WronglyRejected = 28,
    /// A flexible bid is wrongly without a start.
    WronglyUnstarted = 29,
    /// There is no such hour to write lines for.
    LinesHour = 30,
    /// Too few lines are left.
    LinesLeft = 31,
}

impl Rule {
    /// The number by which the rule is known outside.
    pub fn number(self) -> u8
        ensures { result ≡ number self }
    {
        self as u8
    }
}

/// A refused call: the rule that it broke, and the place where.
#[derive(Clone, Copy, PartialEq, Eq, Debug)]
pub struct Refusal {
    pub rule: Rule,
    pub place: u32,
}
