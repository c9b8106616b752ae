//! Which matches a curve allows: at all, and at a price.

ghost use Rattle.std.specs.Prelude.{◌≡◌};
ghost use Rattle.curve.specs.Ranges.{holds};
ghost use Rattle.curve.specs.Margins.{margin as margin_of, offered};

use crate::traits::PriceCurve;
use market::Limits;

/// Lots from the least to the most, both included.
#[derive(Clone, Copy, PartialEq, Eq, Debug)]
pub struct LotRange {
    pub least: i32,
    pub most: i32,
}

impl LotRange {
    /// Whether a number of lots lies in the range.
    pub fn contains(self, lots: i32) -> bool
        ensures { result ≡ holds self lots }
    {
        self.least <= lots && lots <= self.most
    }
}

/// The matches that a curve offers within the limits, from the most sold to the most bought.
pub fn offered_range<C: PriceCurve>(curve: &C, limits: Limits) -> LotRange
    ensures { result ≡ offered (C.PriceCurve.meaning curve.now) limits }
{
    LotRange {
        least: curve.quantity(limits.highest).min(0),
        most: curve.quantity(limits.lowest).max(0),
    }
}

/// The matches that suit a curve at a price of its hour.
pub fn margin<C: PriceCurve>(curve: &C, limits: Limits, price: u32) -> LotRange
    ensures { result ≡ margin_of (C.PriceCurve.meaning curve.now) limits price }
{
    if !limits.contains(price) {
        return LotRange { least: 0, most: 0 };
    }
    let quantity = curve.quantity(price);
    if quantity > 0 {
        let above = if price < limits.highest {
            curve.quantity(price + 1)
        } else {
            0
        };
        LotRange {
            least: above.max(0),
            most: quantity,
        }
    } else if quantity < 0 {
        let below = if limits.lowest < price {
            curve.quantity(price - 1)
        } else {
            0
        };
        LotRange {
            least: quantity,
            most: below.min(0),
        }
    } else {
        LotRange { least: 0, most: 0 }
    }
}
