//! Call scripts: what their lines say, the days that they run, and the report at their end.
#![tactic(auto)]

pub mod bench;
pub mod calls;
pub mod days;
pub mod entries;
pub mod families;
pub mod lines;
pub mod reading;
pub mod report;

pub use days::run;
