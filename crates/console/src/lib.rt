//! What the programs share: reading the words of a line and the curves that they write, the report on an hour, what a
//! refusal means in words, and how and why a program ends.
#![tactic(auto)]

pub mod bench;
pub mod cursor;
pub mod curves;
pub mod ending;
pub mod failure;
pub mod help;
pub mod input;
pub mod reading;
pub mod report;
pub mod sheet;
pub mod words;

pub use cursor::{Cursor, words_of};
pub use curves::read_draft;
pub use ending::{finish, no_more};
pub use failure::{Failure, Reason, Wanted};
pub use input::read_text;
pub use words::Told;
