//! The lowest and the highest price of a day.

ghost use Rattle.std.specs.Prelude.{◌≡◌};
ghost use Rattle.market.specs.Prices.{lawful, within, Made};

use crate::HIGHEST_PRICE;
use crate::refusals::{Refusal, Rule};

/// The lowest and the highest price of a day. Any two numbers make one; those that a day can have are lawful.
#[derive(Clone, Copy, PartialEq, Eq, Debug)]
pub struct Limits {
    pub lowest: u32,
    pub highest: u32,
}

impl Limits {
    /// Lawful limits, or the refusal of limits that are not.
    pub fn new(lowest: u32, highest: u32) -> Result<Limits, Refusal>
        ensures { Made lowest highest result }
    {
        let limits = Limits { lowest, highest };
        if limits.is_lawful() {
            Ok(limits)
        } else {
            Err(Refusal {
                rule: Rule::Limits,
                place: 0,
            })
        }
    }

    /// Whether the lowest price lies below the highest, and that not above the highest price there is.
    pub fn is_lawful(self) -> bool
        ensures { result ≡ lawful self }
    {
        self.lowest < self.highest && self.highest <= HIGHEST_PRICE
    }

    /// Whether a price lies within the limits.
    pub fn contains(self, price: u32) -> bool
        ensures { result ≡ within self price }
    {
        self.lowest <= price && price <= self.highest
    }
}
