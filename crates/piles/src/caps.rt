//! A cap over a curve.

ghost use Rattle.std.specs.Prelude.{◌≡◌, min};
ghost use Rattle.piles.specs.Piles.{capped, cap_reach};
ghost use Rattle.piles.specs.Laws.{capped_laws};

use curve::{PriceCurve, ValuedCurve};
use market::{FARTHEST_REACH, Limits, Side};

/// A curve, cut to at most so many lots bought and so many sold. A number above 1,000,000 counts as that.
#[derive(Clone, Copy)]
pub struct Cap<C> {
    pub curve: C,
    pub bought: u32,
    pub sold: u32,
}

impl<C> Cap<C> {
    /// The curve under the cap.
    pub fn new(curve: C, bought: u32, sold: u32) -> Cap<C>
        ensures { result ≡ record { curve = curve; bought = min bought 1000000; sold = min sold 1000000 } }
    {
        Cap {
            curve,
            bought: bought.min(FARTHEST_REACH),
            sold: sold.min(FARTHEST_REACH),
        }
    }
}

impl<C: PriceCurve> PriceCurve for Cap<C> {
    ghost meaning = { λ c p. capped c.bought c.sold (C.PriceCurve.meaning c.curve p) };

    ghost extent = { λ c. cap_reach c.bought c.sold (C.PriceCurve.extent c.curve) };

    ghost kept = { λ c. capped_laws (C.PriceCurve.meaning c.curve) c.bought c.sold (C.PriceCurve.extent c.curve) (C.PriceCurve.kept c.curve) };

    fn quantity(&self, price: u32) -> i32 {
        let bought = self.bought.min(FARTHEST_REACH) as i32;
        let sold = self.sold.min(FARTHEST_REACH) as i32;
        self.curve.quantity(price).clamp(-sold, bought)
    }

    fn reach(&self) -> u32 {
        let widest = self.bought.max(self.sold);
        self.curve.reach().min(widest)
    }
}

impl<C: ValuedCurve> ValuedCurve for Cap<C> {
    fn worth(&self, limits: Limits, side: Side, lot: u32) -> Option<u32> {
        let most = match side {
            Side::Buying => self.bought,
            Side::Selling => self.sold,
        };
        if lot > most.min(FARTHEST_REACH) {
            return None;
        }
        self.curve.worth(limits, side, lot)
    }
}
