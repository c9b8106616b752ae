//! The calls of a day, and what became of them.

use bids::{BlockBid, FlexibleBid, HourlyBid};
use market::Refusal;

/// A call on a day, with what it is given besides the tables.
#[derive(Clone, Copy)]
pub enum Call<C> {
    EnterHourly(HourlyBid<C>),
    EnterBlock(BlockBid),
    EnterFlexible(FlexibleBid),
    WithdrawHourly(u16),
    WithdrawBlock(u16),
    WithdrawFlexible(u16),
    Close,
}

/// A call of a list, with what became of it.
#[derive(Clone, Copy)]
pub struct Step<C> {
    pub call: Call<C>,
    /// What it answered, or nothing where it was not made, since the state of the day does not have it.
    pub outcome: Option<Result<(), Refusal>>,
}
