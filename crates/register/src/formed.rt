//! The form and the price of a bid of hours.

ghost use Rattle.std.specs.Prelude.{◌≡◌};
ghost use Rattle.bids.specs.Checks.{first_of};
ghost use Rattle.register.specs.Order.{each};
ghost use Rattle.register.specs.Demands.{formed_alone, formed_rules};

use crate::refusing::refuse_if;
use bids::{Bid, Profile};
use market::{Limits, Refusal, Rule};

/// That a bid keeps its form, and its price lies within the limits.
pub fn check_form_and_price<B: Bid + Profile>(limits: Limits, bid: &B) -> Result<(), Refusal>
    ensures { result ≡ first_of (formed_rules limits (B.profile bid.now) (B.Bid.kind.number_of bid.now)) }
{
    bid.check_form()?;
    refuse_if(
        !limits.contains(bid.price()),
        Rule::Price,
        bid.number() as u32,
    )
}

/// Whether each bid keeps its form, and its price lies within the limits.
pub fn are_right<B: Profile>(limits: Limits, bids: &[B]) -> bool
    ensures { result ≡ each (λ b. formed_alone limits (B.profile b)) bids.now }
{
    bids.iter().all(|bid| is_right(limits, bid))
}

/// Whether a bid keeps its form, and its price lies within the limits.
fn is_right<B: Profile>(limits: Limits, bid: &B) -> bool
    ensures { result ≡ formed_alone limits (B.profile bid.now) }
{
    bid.check_form().is_ok() && limits.contains(bid.price())
}
