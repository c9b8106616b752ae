//! The units of the market: prices, limits and sides, and the refusals with their numbers.
#![tactic(auto)]

pub mod limits;
pub mod refusals;
pub mod sides;

pub use limits::Limits;
pub use refusals::{BAD_COUNT, Refusal, Rule};
pub use sides::Side;

/// The highest price that a curve is asked for; a higher one is read as this. In kuruş per MWh.
pub const HIGHEST_PRICE: u32 = 10_000_000;

/// The farthest that a curve reaches, in lots, bought or sold.
pub const FARTHEST_REACH: u32 = 1_000_000;
