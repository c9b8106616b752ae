//! Registers of bids: lent slices of which the first places hold bids by rising number; what makes them lawful, and
//! which bids may be entered and withdrawn.
#![tactic(auto)]

pub mod entries;
pub mod families;
mod formed;
pub mod hours;
pub mod lawful;
pub mod ordered;
mod refusing;
pub mod registered;

pub use entries::{enter, withdraw};
pub use families::Rank;
pub use lawful::{Counts, Tables, check_registers, is_lawful};
pub use ordered::{Register, insert, is_known, is_ordered, remove, standing};
pub use registered::{RegisterKind, Registered};
