//! Flat curves: one quantity at all prices.

ghost use Rattle.std.specs.Prelude.{◌≡◌};
ghost use Rattle.levels.specs.Flats.{flat_quantity, flat_reach, MadeFlat};
ghost use Rattle.levels.specs.FlatLaws.{flat_laws};

use crate::level::MOST_LOTS;
use curve::{PriceCurve, ValuedCurve};
use market::{Limits, Refusal, Rule, Side};

/// A curve of one quantity at all prices. A quantity out of bounds counts as 0.
#[derive(Clone, Copy)]
pub struct Flat {
    pub quantity: i32,
}

impl Flat {
    /// The curve of a quantity, or the refusal of one out of bounds.
    pub fn new(quantity: i32) -> Result<Flat, Refusal>
        ensures { MadeFlat quantity result }
    {
        if quantity < -MOST_LOTS || quantity > MOST_LOTS {
            return Err(Refusal {
                rule: Rule::Form,
                place: 0,
            });
        }
        Ok(Flat { quantity })
    }
}

impl PriceCurve for Flat {
    ghost meaning = { λ c p. flat_quantity c.quantity };

    ghost extent = { λ c. flat_reach c.quantity };

    ghost kept = { λ c. flat_laws c.quantity };

    fn quantity(&self, _price: u32) -> i32 {
        if self.quantity < -MOST_LOTS || self.quantity > MOST_LOTS {
            0
        } else {
            self.quantity
        }
    }

    fn reach(&self) -> u32 {
        self.quantity(0).unsigned_abs()
    }
}

impl ValuedCurve for Flat {
    fn worth(&self, limits: Limits, side: Side, lot: u32) -> Option<u32> {
        if lot == 0 || side.lots(self.quantity(0)) < lot || !limits.is_lawful() {
            return None;
        }
        match side {
            Side::Buying => Some(limits.highest),
            Side::Selling => Some(limits.lowest),
        }
    }
}
