//! How long the calls of a day take at full tables.

use crate::reading::USUAL_PLACES;
use bids::{BlockBid, FlexibleBid, HourlyBid};
use console::Failure;
use console::bench::falling_curve;
use day::OpenDay;
use docket::{Opening, Tables};
use market::{HIGHEST_PRICE, Refusal};
use merit::BidCurve;
use std::alloc::Global;
use std::time::Instant;

/// How many bids of each kind are withdrawn and entered again.
const ROUNDS: u16 = 100;

/// Measures the calls of each kind of bid, and prints a line for each.
pub fn measure(rt: &HostRuntime) -> Result<(), Failure> {
    let mut full = FullDay::new(rt.alloc())?;
    full.fill()?;
    println!(rt; "{:<58}  {:>14}", "call at full tables", "microseconds")?;
    measure_renewal(rt, "enter or withdraw an hourly bid", |round| {
        full.renew_hourly(round.saturating_mul(40))
    })?;
    measure_renewal(rt, "enter or withdraw a block", |round| {
        full.renew_block(round.saturating_mul(6).saturating_add(5))
    })?;
    measure_renewal(rt, "enter or withdraw a flexible bid", |round| {
        full.renew_flexible(round.saturating_mul(5))
    })
}

/// Prints how long each call takes of so many bids that are withdrawn and entered again.
fn measure_renewal<F: FnMut(u16) -> Result<(), Refusal>>(
    rt: &HostRuntime,
    label: &str,
    mut renew: F,
) -> Result<(), Failure>
    requires { F.IsAlwaysCallable renew }
{
    let start = Instant::now(rt)?;
    for round in 0..ROUNDS {
        renew(round)?;
    }
    let spent = start.elapsed(rt)?.as_micros();
    let each = spent / (2 * ROUNDS as u128);
    println!(rt; "{label:<58}  {each:>14}")?;
    Ok(())
}

/// An open day with its tables, and the curve of its hourly bids.
#[derive(Drop)]
struct FullDay {
    day: OpenDay<BidCurve>,
    tables: Tables,
    curve: BidCurve,
}

// A call of each kind, and not one for all three: the calls of `OpenDay` stand each for one register, and lend another of
// the tables to be written.
impl FullDay {
    /// A day with tables of the usual places, still without bids.
    fn new(heap: Global) -> Result<FullDay, Failure> {
        let opening = Opening {
            lowest: 0,
            highest: HIGHEST_PRICE,
            tables: USUAL_PLACES,
            record: USUAL_PLACES,
        };
        Ok(FullDay {
            day: day::open(opening.lowest, opening.highest)?,
            tables: Tables::new(heap, &opening)?,
            curve: falling_curve()?,
        })
    }

    /// Enters a bid for each place.
    fn fill(&mut self) -> Result<(), Refusal> {
        (0..4_096).try_for_each(|index| self.enter_hourly(index))?;
        (0..1_024).try_for_each(|index| self.enter_block(index))?;
        (0..512).try_for_each(|index| self.enter_flexible(index))
    }

    /// Withdraws an hourly bid and enters it again.
    fn renew_hourly(&mut self, index: u16) -> Result<(), Refusal> {
        self.day.withdraw_hourly(
            self.tables.hourly.as_mut_slice(),
            self.tables.blocks.as_slice(),
            self.tables.flexible.as_slice(),
            number(index),
        )?;
        self.enter_hourly(index)
    }

    /// Withdraws a block and enters it again.
    fn renew_block(&mut self, index: u16) -> Result<(), Refusal> {
        self.day.withdraw_block(
            self.tables.hourly.as_slice(),
            self.tables.blocks.as_mut_slice(),
            self.tables.flexible.as_slice(),
            number(index),
        )?;
        self.enter_block(index)
    }

    /// Withdraws a flexible bid and enters it again.
    fn renew_flexible(&mut self, index: u16) -> Result<(), Refusal> {
        self.day.withdraw_flexible(
            self.tables.hourly.as_slice(),
            self.tables.blocks.as_slice(),
            self.tables.flexible.as_mut_slice(),
            number(index),
        )?;
        self.enter_flexible(index)
    }

    /// Enters an hourly bid, of which a participant has 24, one for each hour.
    fn enter_hourly(&mut self, index: u16) -> Result<(), Refusal> {
        let bid = HourlyBid {
            number: number(index),
            participant: index / 24 + 1,
            hour: (index % 24) as u8,
            curve: self.curve,
        };
        self.day.enter_hourly(
            self.tables.hourly.as_mut_slice(),
            self.tables.blocks.as_slice(),
            self.tables.flexible.as_slice(),
            bid,
        )
    }

    /// Enters a block, of which a participant has 48, in families of six.
    fn enter_block(&mut self, index: u16) -> Result<(), Refusal> {
        let head = index / 6 * 6;
        let bid = BlockBid {
            number: number(index),
            participant: index / 48 + 1,
            price: 1_000,
            first: 0,
            hours: 24,
            parent: match index % 6 {
                0 => None,
                1 | 2 | 3 => Some(number(head)),
                _ => Some(number(head + 1)),
            },
            quantities: [100; 24],
        };
        self.day.enter_block(
            self.tables.hourly.as_slice(),
            self.tables.blocks.as_mut_slice(),
            self.tables.flexible.as_slice(),
            bid,
        )
    }

    /// Enters a flexible bid, of which a participant has 6.
    fn enter_flexible(&mut self, index: u16) -> Result<(), Refusal> {
        let bid = FlexibleBid {
            number: number(index),
            participant: index / 6 + 1,
            price: 1_000,
            start: 0,
            length: 24,
            duration: 4,
            quantities: [100; 4],
        };
        self.day.enter_flexible(
            self.tables.hourly.as_slice(),
            self.tables.blocks.as_slice(),
            self.tables.flexible.as_mut_slice(),
            bid,
        )
    }
}

/// The number of the bid at an index.
fn number(index: u16) -> u16 {
    index.saturating_add(1)
}
