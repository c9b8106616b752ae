//! The calls of the days of a script, what they are answered, and what the bids of a day come to.
#![tactic(auto)]

pub mod agenda;
pub mod answers;
pub mod holdings;
pub mod hours;
pub mod openings;
pub mod tables;

pub use agenda::{Agenda, Question, Subject};
pub use answers::{Answer, Denial, Hindrance, answer_to};
pub use holdings::{has_none, holding_of};
pub use hours::Offers;
pub use openings::Opening;
pub use tables::{Evening, Tables};
