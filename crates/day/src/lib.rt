//! A day: it is opened, takes and gives back bids, and is closed. Whatever calls it was given since its opening, every
//! one was answered as the plain book answers it, and the day's bids are the book's.
#![tactic(auto)]

pub mod calls;
pub mod closing;
pub mod entering;
pub mod opening;
pub mod running;
pub mod states;
pub mod withdrawing;

pub use calls::{Call, Step};
pub use opening::open;
pub use running::run;
pub use states::{ClosedDay, Day, OpenDay};
