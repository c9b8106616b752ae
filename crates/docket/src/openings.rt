//! What a day is opened with.

use register::Counts;

/// What a day is opened with: its limits, and the places of its tables and of its clearing record.
#[derive(Clone, Copy)]
pub struct Opening {
    // Two prices and no `Limits` yet: a script may open a day with prices that are no lawful limits, and is told so.
    pub lowest: u32,
    pub highest: u32,
    pub tables: Counts,
    pub record: Counts,
}
