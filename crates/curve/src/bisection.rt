//! What a lot is worth, found by halving the prices: right for every curve, since none rises.

ghost use Rattle.std.specs.Prelude.{◌≡◌, ℕ, ◌<◌, true};
ghost use Rattle.curve.specs.Searches.{AskedBetween, TurnsAt};
ghost use Rattle.curve.specs.Worth.{WorthIs};
ghost use Rattle.market.specs.Prices.{lawful};
ghost use Rattle.market.specs.declared.sides.Side.TheVariants.{Buying, Selling};

use crate::traits::PriceCurve;
use market::{Limits, Side};

/// What a lot is worth within the limits, for any curve.
pub fn bisected_worth<C: PriceCurve>(curve: &C, limits: Limits, side: Side, lot: u32) -> Option<u32>
    ensures { WorthIs (C.PriceCurve.meaning curve.now) limits side lot result }
{
    if lot == 0 || !limits.is_lawful() {
        return None;
    }
    match side {
        Side::Buying => greatest_buying(curve, limits, lot),
        Side::Selling => least_selling(curve, limits, lot),
    }
}

/// The greatest price within lawful limits at which a lot is bought.
// Asked, and not carried by a type: limits are any two numbers to every caller, and `bisected_worth` alone makes this call.
fn greatest_buying<C: PriceCurve>(curve: &C, limits: Limits, lot: u32) -> Option<u32>
    requires counted { 0 < lot }
    requires are_lawful { lawful limits ≡ true }
    ensures { WorthIs (C.PriceCurve.meaning curve.now) limits Buying lot result }
{
    if Side::Buying.lots(curve.quantity(limits.lowest)) < lot {
        return None;
    }
    let last = first_from(limits.lowest, limits.highest, |price| {
        Side::Buying.lots(curve.quantity(price + 1)) < lot
    });
    Some(last)
}

/// The least price within lawful limits at which a lot is sold.
fn least_selling<C: PriceCurve>(curve: &C, limits: Limits, lot: u32) -> Option<u32>
    requires counted { 0 < lot }
    requires are_lawful { lawful limits ≡ true }
    ensures { WorthIs (C.PriceCurve.meaning curve.now) limits Selling lot result }
{
    if Side::Selling.lots(curve.quantity(limits.highest)) < lot {
        return None;
    }
    let first = first_from(limits.lowest, limits.highest, |price| {
        Side::Selling.lots(curve.quantity(price)) >= lot
    });
    Some(first)
}

/// Where a test of numbers from low on, below high, turns from failing to passing, found by halving: high where it does
/// not turn.
pub fn first_from<F: Fn(u32) -> bool>(low: u32, high: u32, test: F) -> u32
    requires { AskedBetween (F.pre test) low high }
    ensures { TurnsAt (F.post test) low high result }
{
    // No `for`: a turn halves what is left. The library halves slices (`partition_point`), and has nothing for numbers.
    let mut first = low;
    let mut passing = high;
    while first < passing {
        let middle = first + (passing - first) / 2;
        if test(middle) {
            passing = middle;
        } else {
            first = middle + 1;
        }
    }
    first
}
