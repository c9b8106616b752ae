//! What a register asks of the bids of each kind, beside their order.

ghost use Rattle.std.specs.Prelude.{◌≡◌, true};
ghost use Rattle.bids.specs.Checks.{first_of};
ghost use Rattle.register.specs.Order.{ordered};
ghost use Rattle.register.specs.declared.registered.RegisterKind.{RegisterKind};
ghost use Rattle.register.specs.declared.registered.RegisterKind.TheVariants.{Hourly, Block, Flexible};
ghost use Rattle.register.specs.Demands.{Demands, hourly_demands, block_demands, flexible_demands};

use crate::entries::{check_family, check_hour, check_no_child};
use crate::formed::{are_right, check_form_and_price};
use crate::hours::are_hours_kept;
use crate::ordered::Register;
use bids::{Bid, BlockBid, FlexibleBid, HourlyBid};
use market::{Limits, Refusal};

/// The kinds of bids, each by the number at which its register is refused.
#[derive(Clone, Copy)]
pub enum RegisterKind {
    Hourly = 1,
    Block = 2,
    Flexible = 3,
}

/// A bid that has a register: what its kind asks of it beside the order.
pub trait Registered: Bid {
    // what the kind asks
    ghost demands: { Demands Self };

    ghost KIND: { RegisterKind };

    /// The kind.
    const KIND: RegisterKind;

    /// That the bid by itself is as its kind asks, under the limits.
    fn check_alone(&self, limits: Limits) -> Result<(), Refusal>
        ensures { result ≡ first_of (demands.alone limits self.now) };

    /// That the bid may stand beside others, as far as that is looked at before the places.
    fn check_beside(&self, bids: &[Self]) -> Result<(), Refusal>
        ensures { result ≡ first_of (demands.beside bids.now self.now) };

    /// That the bid may join others, as far as that is looked at after the places.
    fn check_joining(&self, register: &Register<Self>) -> Result<(), Refusal>
        ensures { result ≡ first_of (demands.joining register.now.bids.now self.now) };

    /// That the bids may stay without the one of a number.
    fn check_leaving(bids: &[Self], number: u16) -> Result<(), Refusal>
        ensures { result ≡ first_of (demands.leaving bids.now number) };

    /// Whether bids that stand in order may stand together under the limits.
    fn are_kept(limits: Limits, register: &Register<Self>) -> bool
        requires { ordered Self.Bid.kind register.now.bids.now ≡ true }
        ensures { result ≡ demands.together limits register.now.bids.now };
}

impl<C> Registered for HourlyBid<C> {
    ghost demands = { hourly_demands };

    ghost KIND = { Hourly };

    const KIND: RegisterKind = RegisterKind::Hourly;

    fn check_alone(&self, _limits: Limits) -> Result<(), Refusal> {
        Ok(())
    }

    fn check_beside(&self, bids: &[Self]) -> Result<(), Refusal> {
        check_hour(bids, self)
    }

    fn check_joining(&self, _register: &Register<Self>) -> Result<(), Refusal> {
        Ok(())
    }

    fn check_leaving(_bids: &[Self], _number: u16) -> Result<(), Refusal> {
        Ok(())
    }

    fn are_kept(_limits: Limits, hourly: &Register<Self>) -> bool {
        are_hours_kept(hourly.bids)
    }
}

impl Registered for BlockBid {
    ghost demands = { block_demands };

    ghost KIND = { Block };

    const KIND: RegisterKind = RegisterKind::Block;

    fn check_alone(&self, limits: Limits) -> Result<(), Refusal> {
        check_form_and_price(limits, self)
    }

    fn check_beside(&self, _bids: &[Self]) -> Result<(), Refusal> {
        Ok(())
    }

    fn check_joining(&self, blocks: &Register<Self>) -> Result<(), Refusal> {
        check_family(blocks, self)
    }

    fn check_leaving(bids: &[Self], number: u16) -> Result<(), Refusal> {
        check_no_child(bids, number)
    }

    fn are_kept(limits: Limits, blocks: &Register<Self>) -> bool {
        are_right(limits, blocks.bids) && blocks.are_families_kept()
    }
}

impl Registered for FlexibleBid {
    ghost demands = { flexible_demands };

    ghost KIND = { Flexible };

    const KIND: RegisterKind = RegisterKind::Flexible;

    fn check_alone(&self, limits: Limits) -> Result<(), Refusal> {
        check_form_and_price(limits, self)
    }

    fn check_beside(&self, _bids: &[Self]) -> Result<(), Refusal> {
        Ok(())
    }

    fn check_joining(&self, _register: &Register<Self>) -> Result<(), Refusal> {
        Ok(())
    }

    fn check_leaving(_bids: &[Self], _number: u16) -> Result<(), Refusal> {
        Ok(())
    }

    fn are_kept(limits: Limits, flexible: &Register<Self>) -> bool {
        are_right(limits, flexible.bids)
    }
}
