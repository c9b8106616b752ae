//! The sum of two curves.

ghost use Rattle.std.specs.Prelude.{◌≡◌};
ghost use Rattle.piles.specs.Piles.{added, sum_reach, Summed};
ghost use Rattle.piles.specs.Laws.{added_laws};

use curve::{PriceCurve, ValuedCurve};
use market::{FARTHEST_REACH, Refusal, Rule};

/// Two curves whose quantities are added. The sum is cut to its reach, which is the total of both, at most 1,000,000.
#[derive(Clone, Copy)]
pub struct Sum<A, B> {
    pub first: A,
    pub second: B,
}

impl<A: PriceCurve + Drop, B: PriceCurve + Drop> Sum<A, B> {
    /// The sum of two curves, or the refusal of two whose reaches total above 1,000,000.
    pub fn new(first: A, second: B) -> Result<Sum<A, B>, Refusal>
        ensures { Summed (A.PriceCurve.extent first) (B.PriceCurve.extent second) first second result }
    {
        if first.reach() + second.reach() > FARTHEST_REACH {
            return Err(Refusal {
                rule: Rule::SumReach,
                place: 0,
            });
        }
        Ok(Sum { first, second })
    }
}

impl<A: PriceCurve, B: PriceCurve> PriceCurve for Sum<A, B> {
    ghost meaning = { λ c p. added (A.PriceCurve.extent c.first) (B.PriceCurve.extent c.second) (A.PriceCurve.meaning c.first p) (B.PriceCurve.meaning c.second p) };

    ghost extent = { λ c. sum_reach (A.PriceCurve.extent c.first) (B.PriceCurve.extent c.second) };

    ghost kept = { λ c. added_laws (A.PriceCurve.meaning c.first) (B.PriceCurve.meaning c.second) (A.PriceCurve.extent c.first) (B.PriceCurve.extent c.second) (A.PriceCurve.kept c.first) (B.PriceCurve.kept c.second) };

    fn quantity(&self, price: u32) -> i32 {
        // No answer lies outside the parts' total reach, so that only 1,000,000 is left to cut to.
        let most = FARTHEST_REACH as i32;
        (self.first.quantity(price) + self.second.quantity(price)).clamp(-most, most)
    }

    fn reach(&self) -> u32 {
        (self.first.reach() + self.second.reach()).min(FARTHEST_REACH)
    }
}

impl<A: ValuedCurve, B: ValuedCurve> ValuedCurve for Sum<A, B> {}
