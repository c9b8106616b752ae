//! Bids as rows by value: hourly, block and flexible bids, what form they must keep, and what every register knows of
//! its bids.
#![tactic(auto)]

pub mod blocks;
pub mod flexibles;
pub mod kinds;
pub mod profiles;
pub mod quantities;
pub mod rows;

pub use kinds::Bid;
pub use profiles::Profile;
pub use rows::{BlockBid, FlexibleBid, HourlyBid};
