//! The tables of a day, and the day after its calls.

ghost use Rattle.std.specs.Prelude.{◌≡◌, take, IfOk, vec_len};
ghost use Rattle.day.specs.States.{counts_of};

use crate::openings::Opening;
use bids::{BlockBid, FlexibleBid, HourlyBid};
use day::Day;
use levels::{Flat, LevelCurve};
use merit::BidCurve;
use piles::{Cap, Sum};
use std::alloc::{AllocError, Global};

/// The tables of a day: its three registers, and the three lists of its clearing record, which wait for a clearing.
// A start of the record is a byte, as a mark is: nothing is written there before a clearing is.
#[derive(Drop)]
pub struct Tables {
    pub hourly: Vec<HourlyBid<BidCurve>>,
    pub blocks: Vec<BlockBid>,
    pub flexible: Vec<FlexibleBid>,
    pub matches: Vec<i32>,
    pub marks: Vec<u8>,
    pub starts: Vec<u8>,
}

impl Tables {
    /// Tables of the places that an opening names, in which nothing stands.
    pub fn new(heap: Global, opening: &Opening) -> Result<Tables, AllocError>
        ensures hourly { IfOk result (λ t. vec_len t.hourly ≡ opening.now.tables.hourly) }
        ensures blocks { IfOk result (λ t. vec_len t.blocks ≡ opening.now.tables.blocks) }
        ensures flexible { IfOk result (λ t. vec_len t.flexible ≡ opening.now.tables.flexible) }
    {
        let tables = opening.tables;
        let record = opening.record;
        Ok(Tables {
            hourly: vec![in heap; blank_hourly(); tables.hourly]?,
            blocks: vec![in heap; BLANK_BLOCK; tables.blocks]?,
            flexible: vec![in heap; BLANK_FLEXIBLE; tables.flexible]?,
            matches: vec![in heap; 0; record.hourly]?,
            marks: vec![in heap; 0; record.blocks]?,
            starts: vec![in heap; 0; record.flexible]?,
        })
    }
}

/// A day after its calls, with its tables.
#[derive(Drop)]
pub struct Evening {
    pub day: Day<BidCurve>,
    pub tables: Tables,
}

// One for each table, of a type of its own; what they share is `front`.
impl Evening {
    /// The hourly bids that stand.
    pub fn hourly(&self) -> &[HourlyBid<BidCurve>]
        ensures { result.now ≡ take (counts_of self.now.day).hourly self.now.tables.hourly.items }
    {
        front(self.tables.hourly.as_slice(), self.day.counts().hourly)
    }

    /// The blocks that stand.
    pub fn blocks(&self) -> &[BlockBid]
        ensures { result.now ≡ take (counts_of self.now.day).blocks self.now.tables.blocks.items }
    {
        front(self.tables.blocks.as_slice(), self.day.counts().blocks)
    }

    /// The flexible bids that stand.
    pub fn flexible(&self) -> &[FlexibleBid]
        ensures { result.now ≡ take (counts_of self.now.day).flexible self.now.tables.flexible.items }
    {
        front(self.tables.flexible.as_slice(), self.day.counts().flexible)
    }
}

/// The first so many rows of a table, or all of a shorter one.
fn front<T>(table: &[T], count: usize) -> &[T]
    ensures { result.now ≡ take count table.now }
{
    table.get(..count).unwrap_or(table)
}

// The blank rows stand one by one: each is used once, and a trait for them would only add three blocks round them.
/// A row of the table of blocks in which no bid stands.
const BLANK_BLOCK: BlockBid = BlockBid {
    number: 0,
    participant: 0,
    price: 0,
    first: 0,
    hours: 0,
    parent: None,
    quantities: [0; 24],
};

/// A row of the table of flexible bids in which no bid stands.
const BLANK_FLEXIBLE: FlexibleBid = FlexibleBid {
    number: 0,
    participant: 0,
    price: 0,
    start: 0,
    length: 0,
    duration: 0,
    quantities: [0; 4],
};

/// A row of the table of hourly bids in which no bid stands.
fn blank_hourly() -> HourlyBid<BidCurve> {
    let nothing = LevelCurve::Flat(Flat { quantity: 0 });
    HourlyBid {
        number: 0,
        participant: 0,
        hour: 0,
        curve: Cap {
            curve: Sum {
                first: nothing,
                second: nothing,
            },
            bought: 0,
            sold: 0,
        },
    }
}
