//! What the hourly bids of an hour offer.

ghost use Rattle.std.specs.Prelude.{◌≡◌, ◌≤◌, length};
ghost use Rattle.market.specs.Lots.{traded};
ghost use Rattle.docket.specs.Offers.{offered, of_hour};

use bids::HourlyBid;
use curve::PriceCurve;
use market::{Limits, Side};

/// How many hourly bids an hour has, and what they offer in all: lots bought at the lowest price, and sold at the
/// highest.
#[derive(Clone, Copy)]
pub struct Offers {
    pub count: u64,
    pub bought: u64,
    pub sold: u64,
}

impl Offers {
    /// What the bids of an hour offer under limits.
    pub fn of<C: PriceCurve>(bids: &[HourlyBid<C>], limits: Limits, hour: u8) -> Offers
        ensures { length bids.now ≤ 4096 → result ≡ offered C.PriceCurve.meaning limits hour bids.now }
    {
        let mut count: u64 = 0;
        let mut bought: u64 = 0;
        let mut sold: u64 = 0;
        for bid in bids {
            count = count.saturating_add(counted(bid, hour));
            bought = bought.saturating_add(lots(bid, hour, Side::Buying, limits.lowest));
            sold = sold.saturating_add(lots(bid, hour, Side::Selling, limits.highest));
        }
        Offers {
            count,
            bought,
            sold,
        }
    }
}

/// 1 for a bid of an hour, and 0 for any other.
fn counted<C>(bid: &HourlyBid<C>, hour: u8) -> u64
    ensures value { result ≡ of_hour hour (λ b. 1) bid.now }
    ensures bound { result ≤ 1 }
{
    if bid.hour == hour { 1 } else { 0 }
}

/// The lots of a bid of an hour on a side at a price, and 0 for any other bid.
fn lots<C: PriceCurve>(bid: &HourlyBid<C>, hour: u8, side: Side, price: u32) -> u64
    ensures value { result ≡ of_hour hour (λ b. traded side (C.PriceCurve.meaning b.curve price)) bid.now }
    ensures bound { result ≤ 1000000 }
{
    if bid.hour == hour {
        side.lots(bid.curve.quantity(price)) as u64
    } else {
        0
    }
}
