//! What a match gains, and what is left of that after its price.

ghost use Rattle.std.specs.Prelude.{◌≡◌, ◌≤◌, pos, neg_ℤ, ◌≤ℤ◌};
ghost use Rattle.curve.specs.Gains.{sum_to, lot_worth, gain as gain_of, surplus as surplus_of};
ghost use Rattle.curve.specs.Theorems.{GreatestInMargin, WorthFound};

use crate::traits::ValuedCurve;
use market::{HIGHEST_PRICE, Limits, Side};

/// The worth of the first lots of a side, added up. It goes by runs of equal worth: all lots that are traded at a
/// lot's worth, and come after that lot, are worth the same.
pub fn worth_of_lots<C: ValuedCurve>(curve: &C, limits: Limits, side: Side, lots: u32) -> u64
    ensures value { result ≡ sum_to (lot_worth (C.PriceCurve.meaning curve.now) limits side) lots }
    ensures by_rule { WorthFound (C.PriceCurve.meaning curve.now) limits side }
    ensures bound { result ≤ 10000000000000 }
{
    let mut total: u64 = 0;
    let mut counted: u32 = 0;
    // No `for` over the lots: a turn goes on by a whole run of lots of equal worth, as many as the curve has there.
    while counted < lots {
        let Some(price) = curve.worth(limits, side, counted + 1) else {
            break;
        };
        let end = side.lots(curve.quantity(price)).min(lots);
        total += price as u64 * (end - counted) as u64;
        counted = end;
    }
    total
}

/// What a match gains: the worth of the lots bought, or minus the worth of the lots sold. In tenths of a kuruş.
pub fn gain<C: ValuedCurve>(curve: &C, limits: Limits, matched: i32) -> i64
    ensures value { result ≡ gain_of (C.PriceCurve.meaning curve.now) limits matched }
    ensures low_bound { neg_ℤ (pos 10000000000000) ≤ℤ result }
    ensures high_bound { result ≤ℤ pos 10000000000000 }
{
    if matched < 0 {
        -(worth_of_lots(curve, limits, Side::Selling, matched.unsigned_abs()) as i64)
    } else {
        worth_of_lots(curve, limits, Side::Buying, matched.unsigned_abs()) as i64
    }
}

/// What a match gains less what it costs at the price of its hour. No match that the curve offers has more than
/// those in the margin, and only those have as much. In tenths of a kuruş.
pub fn surplus<C: ValuedCurve>(curve: &C, limits: Limits, price: u32, matched: i32) -> i64
    ensures value { result ≡ surplus_of (C.PriceCurve.meaning curve.now) limits price matched }
    ensures greatest { GreatestInMargin (C.PriceCurve.meaning curve.now) limits price matched }
{
    gain(curve, limits, matched) - price.min(HIGHEST_PRICE) as i64 * matched as i64
}
