//! What makes the registers lawful.

ghost use Rattle.std.specs.Prelude.{◌≡◌, ◌↔◌, Ok};
ghost use Rattle.bids.specs.Checks.{first_of};
ghost use Rattle.register.specs.Lawful.{lawful_table, register_rules};
ghost use Rattle.register.specs.Demands.{kept_by, lawful_rule};
ghost use Rattle.register.specs.Views.{lists};
ghost use Rattle.register.specs.Words.{LawfulRegisters};

use crate::ordered::Register;
use crate::refusing::refuse_if;
use crate::registered::Registered;
use bids::{BlockBid, FlexibleBid, HourlyBid};
use market::{Limits, Refusal, Rule};

/// How many there are of each kind: of bids that stand, or of places for them.
#[derive(Clone, Copy)]
pub struct Counts {
    pub hourly: usize,
    pub blocks: usize,
    pub flexible: usize,
}

/// The tables of the three registers, as they are lent.
#[derive(Clone, Copy)]
pub struct Tables<'a, C> {
    pub hourly: &'a [HourlyBid<C>],
    pub blocks: &'a [BlockBid],
    pub flexible: &'a [FlexibleBid],
}

/// That the three registers are lawful, or the refusal of the first that is not: 1 hourly, 2 block, 3 flexible.
pub fn check_registers<C>(limits: Limits, counts: Counts, tables: Tables<C>) -> Result<(), Refusal>
    ensures value { result ≡ first_of (register_rules limits counts (lists tables.entry)) }
    ensures words { (result ≡ Ok tt) ↔ LawfulRegisters limits counts (lists tables.entry) }
{
    first_unlawful(limits, counts, tables)
}

/// The refusal of the first register that is not lawful, if there is one.
fn first_unlawful<C>(limits: Limits, counts: Counts, tables: Tables<C>) -> Result<(), Refusal>
    ensures { result ≡ first_of (register_rules limits counts (lists tables.entry)) }
{
    check_lawful(limits, tables.hourly, counts.hourly)?;
    check_lawful(limits, tables.blocks, counts.blocks)?;
    check_lawful(limits, tables.flexible, counts.flexible)
}

/// That the first places of a table are a lawful register, or its refusal.
fn check_lawful<B: Registered>(limits: Limits, table: &[B], count: usize) -> Result<(), Refusal>
    ensures { result ≡ first_of (lawful_rule B.Bid.kind B.demands B.KIND limits count table.now) }
{
    refuse_if(
        !is_lawful(limits, table, count),
        Rule::Register,
        B::KIND as u32,
    )
}

/// Whether the first places of a table are a lawful register.
pub fn is_lawful<B: Registered>(limits: Limits, table: &[B], count: usize) -> bool
    ensures { result ≡ lawful_table (kept_by B.Bid.kind B.demands limits) count table.now }
{
    if count > table.len() {
        return false;
    }
    match Register::of(&table[0..count]) {
        Some(register) => B::are_kept(limits, &register),
        None => false,
    }
}
