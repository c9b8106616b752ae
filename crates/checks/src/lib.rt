//! The worked figures of the market, as tests of the library crates.
#![tactic(auto)]

#[cfg(test)]
mod curves;
#[cfg(test)]
mod matches;
#[cfg(test)]
mod sheets;
