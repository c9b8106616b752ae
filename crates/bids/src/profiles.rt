//! Bids with a quantity for each of their hours, and the form that these keep.

ghost use Rattle.std.specs.Prelude.{◌≡◌, not};
ghost use Rattle.bids.specs.Checks.{first_of, first_where};
ghost use Rattle.bids.specs.Profiles.{Profile, form_rules, Formed};
ghost use Rattle.bids.specs.Quantities.{quantity_in, side_of};

use crate::quantities::{BAD_COUNT, side};
use market::{Refusal, Rule, Side};

/// A bid with a price and with a quantity for each of its hours, which keeps a form: its hours are allowed, and each of
/// them is right.
pub trait Profile {
    // the bid as its form looks at it
    ghost profile: { Self → Profile };

    /// The price of the bid.
    fn price(&self) -> u32
        ensures { result ≡ (profile self.now).price };

    /// Whether the hours of the bid are allowed.
    fn spans_hours(&self) -> bool
        ensures { result ≡ (profile self.now).spans };

    /// How many hours the bid has.
    fn hours(&self) -> u8
        ensures { result ≡ (profile self.now).hours };

    /// The quantities from the bid's hour 0 on. Those past its hours are no part of it.
    fn quantities(&self) -> &[i32]
        ensures { result.now ≡ (profile self.now).quantities };

    /// Whether the quantity in an hour is right, by itself and beside the others.
    fn is_right_at(&self, hour: u8) -> bool
        ensures { result ≡ (profile self.now).right hour };

    /// The quantity in an hour, counted from 0; it is 0 in an hour for which the row has no place.
    fn quantity(&self, hour: u8) -> i32
        ensures { result ≡ quantity_in (profile self.now).quantities hour }
    {
        self.quantities().get(hour as usize).copied().unwrap_or(0)
    }

    /// The first hour that is not right, if there is one.
    fn first_wrong(&self) -> Option<u8>
        ensures { result ≡ first_where (profile self.now).hours (λ i. not ((profile self.now).right i)) }
    {
        (0..self.hours()).find(|hour| !self.is_right_at(*hour))
    }

    /// That the bid keeps its form, or the refusal: at 99 for its hours, else at the first hour that breaks it.
    #[tactic(auto, using(crate::proofs::Checks::first_found, crate::proofs::Checks::none_found), unfolding(crate::specs::Profiles::fault))]
    fn check_form(&self) -> Result<(), Refusal>
        ensures value { result ≡ first_of (form_rules (profile self.now)) }
        ensures rule { Formed (profile self.now) result }
    {
        if !self.spans_hours() {
            return Err(Refusal {
                rule: Rule::Form,
                place: BAD_COUNT,
            });
        }
        match self.first_wrong() {
            Some(hour) => Err(Refusal {
                rule: Rule::Form,
                place: hour as u32,
            }),
            None => Ok(()),
        }
    }

    /// Whether the bid buys or sells.
    fn side(&self) -> Side
        ensures { result ≡ side_of (quantity_in (profile self.now).quantities 0) }
    {
        side(self.quantity(0))
    }
}
