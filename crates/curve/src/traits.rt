//! What a price curve is, and one that tells what each lot is worth.

ghost use Rattle.std.specs.Prelude.{◌≡◌, ℕ, ℤ};
ghost use Rattle.curve.specs.Laws.{CurveLaws};
ghost use Rattle.curve.specs.Worth.{WorthIs};

use crate::bisection::bisected_worth;
use market::{Limits, Side};

/// A quantity for each price: above 0 the lots that are bought at that price, below 0 those that are sold.
pub trait PriceCurve {
    // the quantity at each price
    ghost meaning: { Self → ℕ → ℤ };

    // how far the quantities reach, bought or sold
    ghost extent: { Self → ℕ };

    /// The quantity at a price.
    fn quantity(&self, price: u32) -> i32
        ensures { result ≡ meaning self.now price };

    /// The most lots that are bought or sold at any price.
    fn reach(&self) -> u32
        ensures { result ≡ extent self.now };

    ghost kept: { (c : Self) → CurveLaws (meaning c) (extent c) };
}

/// A price curve that tells what each of its lots is worth.
pub trait ValuedCurve: PriceCurve {
    /// What a lot, counted from 1, is worth within the limits: buying it the greatest price at which the curve
    /// buys as many, selling it the least price at which the curve sells as many.
    fn worth(&self, limits: Limits, side: Side, lot: u32) -> Option<u32>
        ensures { WorthIs (Self.PriceCurve.meaning self.now) limits side lot result }
    {
        bisected_worth(self, limits, side, lot)
    }
}

/// A curve that is lent is asked as itself.
impl<C: PriceCurve> PriceCurve for &C {
    ghost meaning = { λ c p. C.PriceCurve.meaning c.now p };

    ghost extent = { λ c. C.PriceCurve.extent c.now };

    ghost kept = { λ c. C.PriceCurve.kept c.now };

    fn quantity(&self, price: u32) -> i32 {
        (**self).quantity(price)
    }

    fn reach(&self) -> u32 {
        (**self).reach()
    }
}

impl<C: ValuedCurve> ValuedCurve for &C {
    fn worth(&self, limits: Limits, side: Side, lot: u32) -> Option<u32> {
        (**self).worth(limits, side, lot)
    }
}
