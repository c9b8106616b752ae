//! Curves given by levels: linear, stepped and flat, and one kind that is any of the three.
#![tactic(auto)]

pub mod constant;
pub mod kinds;
pub mod level;
pub mod line;
pub mod search;
pub mod steps;
pub mod table;

pub use constant::Flat;
pub use kinds::LevelCurve;
pub use level::Level;
pub use line::Linear;
pub use steps::Stepped;
pub use table::LevelTable;
