//! What the curves of an hour come to, and how curves are made as they are written.
#![tactic(auto)]

pub mod draft;
pub mod hour;

pub use draft::{BidCurve, Draft, Part};
pub use hour::{Hour, TotalRange, Totals, traded};
