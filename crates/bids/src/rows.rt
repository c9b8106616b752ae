//! The rows of the registers. Every content is a row; what is lawful is decided by checks.
//!
//! Rows lie by value in tables that a caller lends, and nothing here allocates: so the quantities have room for the most
//! hours that a bid can have, and the count of hours stands beside them.

/// A bid for one hour, with a price curve.
#[derive(Clone, Copy)]
pub struct HourlyBid<C> {
    pub number: u16,
    pub participant: u16,
    pub hour: u8,
    pub curve: C,
}

/// A bid for consecutive hours, taken whole or not at all. Quantities past its hours are no part of it.
#[derive(Clone, Copy)]
pub struct BlockBid {
    pub number: u16,
    pub participant: u16,
    pub price: u32,
    pub first: u8,
    pub hours: u8,
    pub parent: Option<u16>,
    pub quantities: [i32; 24],
}

/// A bid that may start at any hour that keeps it within its window. Quantities past its duration are no part of it.
#[derive(Clone, Copy)]
pub struct FlexibleBid {
    pub number: u16,
    pub participant: u16,
    pub price: u32,
    pub start: u8,
    pub length: u8,
    pub duration: u8,
    pub quantities: [i32; 4],
}
