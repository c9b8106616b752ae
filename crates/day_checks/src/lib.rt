//! The worked figures of bids and of days, as tests of the library crates.
#![tactic(auto)]

#[cfg(test)]
mod bid_forms;
pub mod days;
