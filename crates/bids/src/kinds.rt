//! What every register knows of its bids.

ghost use Rattle.std.specs.Prelude.{◌≡◌, ℕ, refl};
ghost use Rattle.bids.specs.Kinds.{Kind};
ghost use Rattle.bids.specs.Registers.{hourly};

use crate::rows::HourlyBid;

/// A bid that a register can hold: it has a number and a participant, and its kind names how many one participant may
/// have standing and how many places a register has at most.
// Each row reads its own fields: a struct around all three would only put the fields of each a step deeper.
pub trait Bid {
    // what a register knows of its bids
    ghost kind: { Kind Self };

    ghost MOST_STANDING: { ℕ };

    ghost MOST_PLACES: { ℕ };

    /// How many bids of the kind one participant may have standing.
    const MOST_STANDING: usize;

    /// How many bids of the kind a register holds at most.
    const MOST_PLACES: usize;

    /// The number of the bid.
    fn number(&self) -> u16
        ensures { result ≡ kind.number_of self.now };

    /// The participant whose bid it is.
    fn participant(&self) -> u16
        ensures { result ≡ kind.participant_of self.now };

    // the constants are those of the kind
    ghost standing_of_kind: { MOST_STANDING ≡ kind.most_standing };

    ghost places_of_kind: { MOST_PLACES ≡ kind.most_places };
}

impl<C> Bid for HourlyBid<C> {
    ghost kind = { hourly };

    ghost MOST_STANDING = { (hourly {C = C}).most_standing };

    ghost MOST_PLACES = { (hourly {C = C}).most_places };

    ghost standing_of_kind = { refl };

    ghost places_of_kind = { refl };

    const MOST_STANDING: usize = 24;

    const MOST_PLACES: usize = 4_096;

    fn number(&self) -> u16 {
        self.number
    }

    fn participant(&self) -> u16 {
        self.participant
    }
}
