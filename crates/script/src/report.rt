//! The report on the day that stands at the end of a script.

use crate::families::Family;
use bids::{BlockBid, HourlyBid};
use console::Failure;
use day::Day;
use docket::{Evening, Offers, has_none, holding_of};
use market::Limits;
use merit::BidCurve;
use register::ordered::HIGHEST_PARTICIPANT;
use register::{Counts, Tables};
use std::alloc::{AllocError, Global};

/// Prints the whole report.
pub fn print(rt: &HostRuntime, evening: &Evening) -> Result<(), Failure> {
    let state = match &evening.day {
        Day::Open(_) => "open",
        Day::Closed(_) => "closed",
    };
    let limits = evening.day.limits();
    let Limits { lowest, highest } = limits;
    println!(rt; "The day is {state}, with limits of {lowest} and {highest} kuruş per MWh.")?;
    print_counts(rt, evening)?;
    print_holdings(rt, evening)?;
    print_families(rt, evening.blocks())?;
    print_offers(rt, evening.hourly(), limits)
}

/// Prints how many bids of each kind stand.
fn print_counts(rt: &HostRuntime, evening: &Evening) -> Result<(), Failure> {
    println!(rt; "")?;
    println!(rt; "Bids that stand")?;
    println!(rt; "{:<11}  {:>8}", "hourly", evening.hourly().len())?;
    println!(rt; "{:<11}  {:>8}", "block", evening.blocks().len())?;
    println!(rt; "{:<11}  {:>8}", "flexible", evening.flexible().len())?;
    Ok(())
}

/// Prints how many bids of each kind each participant has that has any.
fn print_holdings(rt: &HostRuntime, evening: &Evening) -> Result<(), Failure> {
    println!(rt; "")?;
    println!(rt; "Bids by participant")?;
    println!(rt;
        "{:>11}  {:>8}  {:>8}  {:>8}",
        "participant", "hourly", "block", "flexible"
    )?;
    let standing = Tables {
        hourly: evening.hourly(),
        blocks: evening.blocks(),
        flexible: evening.flexible(),
    };
    for participant in 0..=HIGHEST_PARTICIPANT {
        let holding = holding_of(standing, participant);
        if !has_none(holding) {
            let Counts {
                hourly,
                blocks,
                flexible,
            } = holding;
            println!(rt; "{participant:>11}  {hourly:>8}  {blocks:>8}  {flexible:>8}")?;
        }
    }
    Ok(())
}

/// Prints the families of more than one block, and how many blocks stand alone.
fn print_families(rt: &HostRuntime, blocks: &[BlockBid]) -> Result<(), Failure> {
    println!(rt; "")?;
    println!(rt; "Families of blocks, by number")?;
    println!(rt; "{:>11}  {:<19}  below those", "head", "below the head")?;
    // Counted in the pass that prints the others, and not by a chain of its own.
    let mut alone: u32 = 0;
    for head in blocks.iter().filter(|block| block.parent.is_none()) {
        let family = Family::of(rt.alloc(), blocks, head.number)?;
        if family.children.is_empty() {
            alone = alone.saturating_add(1);
        } else {
            print_family(rt, &family)?;
        }
    }
    println!(rt; "Blocks that stand alone: {alone}")?;
    Ok(())
}

/// Prints a family.
fn print_family(rt: &HostRuntime, family: &Family) -> Result<(), Failure> {
    let head = family.head;
    let children = listed(rt.alloc(), family.children.as_slice())?;
    let grandchildren = listed(rt.alloc(), family.grandchildren.as_slice())?;
    println!(rt; "{head:>11}  {children:<19}  {grandchildren}")?;
    Ok(())
}

/// Numbers, one after the other, or `-` where there is none.
fn listed(heap: Global, numbers: &[u16]) -> Result<String, AllocError> {
    if numbers.is_empty() {
        return String::from_str(heap, "-");
    }
    let numbers: Vec<String> = numbers
        .iter()
        .map(|number| number.to_string(heap))
        .try_collect(heap)?;
    numbers.join(heap, " ")
}

/// Prints what the hourly bids of each hour offer.
fn print_offers(
    rt: &HostRuntime,
    hourly: &[HourlyBid<BidCurve>],
    limits: Limits,
) -> Result<(), Failure> {
    println!(rt; "")?;
    println!(rt;
        "Hourly bids by hour, in lots of 0.1 MWh: bought at the lowest price, sold at the highest"
    )?;
    println!(rt;
        "{:>11}  {:>8}  {:>12}  {:>12}",
        "hour", "bids", "bought", "sold"
    )?;
    for hour in 0..24 {
        let Offers {
            count,
            bought,
            sold,
        } = Offers::of(hourly, limits, hour);
        println!(rt; "{hour:>11}  {count:>8}  {bought:>12}  {sold:>12}")?;
    }
    Ok(())
}
