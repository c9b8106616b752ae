//! Price curves: what every kind of curve means and keeps, and what follows from that alone.
#![tactic(auto)]

pub mod bisection;
pub mod gains;
pub mod ranges;
pub mod traits;

pub use bisection::bisected_worth;
pub use gains::{gain, surplus, worth_of_lots};
pub use ranges::{LotRange, margin, offered_range};
pub use traits::{PriceCurve, ValuedCurve};
