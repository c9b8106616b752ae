//! Entering and withdrawing bids.

ghost use Rattle.std.specs.Prelude.{◌≡◌, ◌+◌, ◌-◌, ◌≤◌, true, [], ◌∷◌, length, take, OnOk, OnErr, Ok, Err};
ghost use Rattle.bids.specs.Checks.{first_of, broken, GoesOn};
ghost use Rattle.market.specs.declared.refusals.Rule.TheVariants as rules;
ghost use Rattle.register.specs.Order.{ordered, entered, without, Placed};
ghost use Rattle.register.specs.Families.{child_stands};
ghost use Rattle.register.specs.Entries.{identity_rule, fresh_rules, room_rule, standing_rule, hour_rule, family_rules};
ghost use Rattle.register.specs.Lawful.{lawful_table};
ghost use Rattle.register.specs.Demands.{enter_by, withdraw_by};

use crate::families::has_child;
use crate::hours::{LAST_HOUR, is_hour_taken};
use crate::ordered::{Register, insert, is_known, remove, standing};
use crate::refusing::refuse_if;
use crate::registered::Registered;
use bids::{Bid, BlockBid, HourlyBid};
use market::{Limits, Refusal, Rule};

// A table and the count of its bids come apart, here and in what moves bids within a table: memory is fixed, so the
// caller lends the tables, and a day keeps the counts between its calls. That the bids are in order is asked of the table,
// and not had from a `Register`: that lends them to be read, and these calls write them.
/// Enters a bid among the first bids of a table, or is refused and alters nothing.
pub fn enter<B: Registered + Copy>(
    limits: Limits,
    table: &mut [B],
    count: &mut usize,
    bid: B,
) -> Result<(), Refusal>
    requires { lawful_table (ordered B.Bid.kind) count.old table.old ≡ true }
    ensures value { result ≡ first_of (enter_by B.Bid.kind B.demands limits (length table.old) (take count.old table.old) bid) }
    ensures bids { OnOk result (take count.new table.new ≡ entered B.Bid.kind bid (take count.old table.old)) }
    ensures counted { OnOk result (count.new ≡ count.old + 1) }
    ensures within { count.new ≤ length table.new }
    ensures places { length table.new ≡ length table.old }
    ensures count_stays { OnErr result (count.new ≡ count.old) }
    ensures table_stays { OnErr result (table.new ≡ table.old) }
{
    let register = Register {
        bids: &table[0..*count],
    };
    let place = register.judge(limits, table.len(), &bid)?;
    insert(table, *count, place, bid);
    *count += 1;
    Ok(())
}

/// Withdraws the bid of a number from the first bids of a table, or is refused and alters nothing.
pub fn withdraw<B: Registered + Copy>(
    table: &mut [B],
    count: &mut usize,
    number: u16,
) -> Result<(), Refusal>
    requires { lawful_table (ordered B.Bid.kind) count.old table.old ≡ true }
    ensures value { result ≡ first_of (withdraw_by B.Bid.kind B.demands (take count.old table.old) number) }
    ensures bids { OnOk result (take count.new table.new ≡ without B.Bid.kind number (take count.old table.old)) }
    ensures counted { OnOk result (count.new ≡ count.old - 1) }
    ensures within { count.new ≤ length table.new }
    ensures places { length table.new ≡ length table.old }
    ensures count_stays { OnErr result (count.new ≡ count.old) }
    ensures table_stays { OnErr result (table.new ≡ table.old) }
{
    let register = Register {
        bids: &table[0..*count],
    };
    let place = register.judge_withdrawal(number)?;
    remove(table, *count, place);
    *count -= 1;
    Ok(())
}

impl<'a, B: Bid> Register<'a, B> {
    /// The place of the bid of a number, or the refusal of a number that does not stand.
    pub fn check_standing(&self, number: u16) -> Result<usize, Refusal>
        ensures { GoesOn (standing_rule B.Bid.kind self.now.bids.now number) (λ at. Placed B.Bid.kind number self.now.bids.now (Ok at)) result }
    {
        match self.find(number) {
            Ok(place) => Ok(place),
            Err(_) => Err(Refusal {
                rule: Rule::NotStanding,
                place: number as u32,
            }),
        }
    }
}

impl<'a, B: Registered> Register<'a, B> {
    /// The place at which a bid may be entered, into a table of so many places, or its refusal.
    #[tactic(auto, using(bids::proofs::Checks::goes, bids::proofs::Checks::stops))]
    pub fn judge(&self, limits: Limits, room: usize, bid: &B) -> Result<usize, Refusal>
        ensures { GoesOn (enter_by B.Bid.kind B.demands limits room self.now.bids.now bid.now) (λ at. Placed B.Bid.kind (B.Bid.kind.number_of bid.now) self.now.bids.now (Err at)) result }
    {
        check_identity(bid)?;
        bid.check_alone(limits)?;
        let place = self.check_fresh(bid)?;
        bid.check_beside(self.bids)?;
        check_room(self.bids, room, bid)?;
        bid.check_joining(self)?;
        Ok(place)
    }

    /// The place of the bid of a number that may be withdrawn, or its refusal.
    pub fn judge_withdrawal(&self, number: u16) -> Result<usize, Refusal>
        ensures { GoesOn (withdraw_by B.Bid.kind B.demands self.now.bids.now number) (λ at. Placed B.Bid.kind number self.now.bids.now (Ok at)) result }
    {
        let place = self.check_standing(number)?;
        B::check_leaving(self.bids, number)?;
        Ok(place)
    }

    /// The place for a bid whose number does not stand yet, and whose participant has fewer than it may have.
    fn check_fresh(&self, bid: &B) -> Result<usize, Refusal>
        ensures { GoesOn (fresh_rules B.Bid.kind self.now.bids.now bid.now) (λ at. Placed B.Bid.kind (B.Bid.kind.number_of bid.now) self.now.bids.now (Err at)) result }
    {
        let number = bid.number();
        let Err(place) = self.find(number) else {
            return Err(Refusal {
                rule: Rule::NumberStands,
                place: number as u32,
            });
        };
        let count = standing(self.bids, bid.participant());
        refuse_if(count >= B::MOST_STANDING, Rule::MostBids, number as u32)?;
        Ok(place)
    }
}

/// That the number and the participant of a bid are in bounds.
fn check_identity<B: Bid>(bid: &B) -> Result<(), Refusal>
    ensures { result ≡ first_of (identity_rule B.Bid.kind bid.now) }
{
    refuse_if(!is_known(bid), Rule::Identity, bid.number() as u32)
}

/// That the hour of a bid is one of the day, and its participant has no bid in it.
pub(crate) fn check_hour<C>(bids: &[HourlyBid<C>], bid: &HourlyBid<C>) -> Result<(), Refusal>
    ensures { result ≡ first_of (hour_rule bids.now bid.now) }
{
    refuse_if(
        bid.hour > LAST_HOUR || is_hour_taken(bids, bid.participant, bid.hour),
        Rule::Hour,
        bid.hour as u32,
    )
}

/// That a place is free in a table of so many places in which so many bids stand.
fn check_room<B: Bid>(bids: &[B], room: usize, bid: &B) -> Result<(), Refusal>
    ensures { result ≡ first_of (room_rule B.Bid.kind room bids.now bid.now) }
{
    refuse_if(
        bids.len() >= room.min(B::MOST_PLACES),
        Rule::RegisterFull,
        bid.number() as u32,
    )
}

/// That the parent of a block stands and may be one, and that its family keeps its limits with the block.
pub(crate) fn check_family(register: &Register<BlockBid>, bid: &BlockBid) -> Result<(), Refusal>
    ensures { result ≡ first_of (family_rules register.now.bids.now bid.now) }
{
    refuse_if(
        !register.is_parent_kept(bid),
        Rule::Parent,
        bid.number as u32,
    )?;
    refuse_if(!register.is_joining(bid), Rule::Family, bid.number as u32)
}

/// That no child of the block of a number stands.
pub(crate) fn check_no_child(bids: &[BlockBid], number: u16) -> Result<(), Refusal>
    ensures { result ≡ first_of (broken (child_stands number bids.now) rules.ChildStands number ∷ []) }
{
    refuse_if(has_child(bids, number), Rule::ChildStands, number as u32)
}
