//! What all bids of an hour come to: totals, the price at which they balance, and their matches there.

ghost use Rattle.std.specs.Prelude.{ℤ, ◌≡◌, ◌≤◌, true, length, pos, neg_ℤ, ◌≤ℤ◌, IfOk, vec_len};
ghost use Rattle.std.specs.Fn.{FnReturnsAt};
ghost use Rattle.market.specs.Prices.{lawful};
ghost use Rattle.merit.specs.Hours.{totals, margins, lots_of, NextChange, Balancing, Matched, gains};
ghost use Rattle.curve.specs.Margins.{margin as margin_of};

use curve::bisection::first_from;
use curve::{PriceCurve, ValuedCurve, gain, margin};
use market::{Limits, Side};
use std::alloc::{AllocError, Global};

/// The lots of all bids at a price, bought and sold.
#[derive(Clone, Copy, PartialEq, Eq)]
pub struct Totals {
    pub bought: u64,
    pub sold: u64,
}

/// The least and the most of all matches that suit at a price, each added up.
#[derive(Clone, Copy)]
pub struct TotalRange {
    pub least: i64,
    pub most: i64,
}

/// The curves of an hour, at most 4,096, under the limits of its day.
#[derive(Drop)]
pub struct Hour<'a, C> {
    pub curves: &'a [C],
    pub limits: Limits,
    ghost few: { length curves.now ≤ 4096 },
}

impl<'a, C: PriceCurve> Hour<'a, C> {
    /// What the curves buy and sell in all at a price.
    pub fn totals_at(&self, price: u32) -> Totals
        ensures { result ≡ totals C.PriceCurve.meaning self.now.curves.now price }
    {
        total_lots(self.curves, |curve| curve.quantity(price))
    }

    /// The margins of the curves at a price, added up.
    pub fn total_margin(&self, price: u32) -> TotalRange
        ensures value { result ≡ margins C.PriceCurve.meaning self.now.limits self.now.curves.now price }
        ensures low_bound { neg_ℤ (pos 8796093022208) ≤ℤ result.least }
        ensures high_bound { result.least ≤ℤ pos 8796093022208 }
    {
        let mut least: i64 = 0;
        let mut most: i64 = 0;
        for curve in self.curves {
            let range = margin(curve, self.limits, price);
            least += range.least as i64;
            most += range.most as i64;
        }
        TotalRange { least, most }
    }

    /// The lowest price above a price, and within the limits, at which the totals are others than there.
    pub fn next_change(&self, price: u32) -> Option<u32>
        ensures { NextChange (totals C.PriceCurve.meaning self.now.curves.now) self.now.limits price result }
    {
        let here = self.totals_at(price);
        let highest = self.limits.highest;
        // Asked first: where nothing changes up to the highest price, no search is made.
        if price >= highest || self.totals_at(highest) == here {
            return None;
        }
        Some(first_from(price + 1, highest, |other| self.totals_at(other) != here))
    }

    /// The lowest price within the limits at which the margins let the matches add up to 0.
    pub fn balancing_price(&self) -> Option<u32>
        ensures { lawful self.now.limits ≡ true → Balancing (margins C.PriceCurve.meaning self.now.limits self.now.curves.now) self.now.limits result }
    {
        let Limits { lowest, highest } = self.limits;
        let price = first_from(lowest, highest, |price| self.total_margin(price).least <= 0);
        (self.total_margin(price).most >= 0).then_some(price)
    }

    /// A match for each curve at a price: the least of its margin, and as much more within it as is still missing to a
    /// total of 0, handed out from the first curve on.
    pub fn matches(&self, heap: Global, price: u32) -> Result<Vec<i32>, AllocError>
        ensures len { IfOk result (λ v. vec_len v ≡ length self.now.curves.now) }
        ensures matched { IfOk result (λ v. Matched (λ c. margin_of (C.PriceCurve.meaning c) self.now.limits price) self.now.curves.now v.items) }
    {
        let mut missing = -self.total_margin(price).least;
        let mut matched = Vec::new(heap);
        for curve in self.curves {
            let range = margin(curve, self.limits, price);
            let room = range.most as i64 - range.least as i64;
            let more = missing.clamp(0, room);
            missing -= more;
            matched.push((range.least as i64 + more) as i32)?;
        }
        Ok(matched)
    }
}

impl<'a, C: ValuedCurve> Hour<'a, C> {
    /// The gains of the matches of the curves, added up. In tenths of a kuruş.
    // The matches are a list beside the curves, as a proposal has them, and no pairs: the curves are lent.
    pub fn total_gain(&self, matched: &[i32]) -> i64
        requires { length matched.now ≡ length self.now.curves.now }
        ensures { result ≡ gains C.PriceCurve.meaning self.now.limits self.now.curves.now matched.now }
    {
        let mut total: i64 = 0;
        for (curve, lots) in self.curves.iter().zip(matched) {
            total += gain(curve, self.limits, *lots);
        }
        total
    }
}

/// The lots of the matches, bought and sold.
pub fn traded(matched: &[i32]) -> Totals
    requires { length matched.now ≤ 4096 }
    ensures { result ≡ lots_of (λ m. m) matched.now }
{
    total_lots(matched, |lots| *lots)
}

/// The lots of the quantities of items, bought and sold.
fn total_lots<T, F: Fn(&T) -> i32>(items: &[T], quantity: F) -> Totals
    requires few { length items.now ≤ 4096 }
    requires callable { F.IsAlwaysCallable quantity }
    ensures { (q : T → ℤ) → ((x : T) (z : ℤ) → FnReturnsAt F.Fn quantity x z → z ≡ q x) → result ≡ lots_of q items.now }
{
    let mut bought: u64 = 0;
    let mut sold: u64 = 0;
    for item in items {
        let lots = quantity(item);
        bought += Side::Buying.lots(lots) as u64;
        sold += Side::Selling.lots(lots) as u64;
    }
    Totals { bought, sold }
}
