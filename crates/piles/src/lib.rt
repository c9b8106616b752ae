//! Curves made of curves: a cap over any curve, and the sum of any two.
#![tactic(auto)]

pub mod caps;
pub mod sums;

pub use caps::Cap;
pub use sums::Sum;
