//! The words of a line, read one after the other.

use crate::failure::{Reason, Wanted};
use std::alloc::{AllocError, Global};
use std::str::FromStr;

/// The words of a line, which spaces separate. A line that begins with `#` is a comment, and has none.
pub fn words_of<'a>(heap: Global, line: &'a str) -> Result<Vec<&'a str>, AllocError> {
    if line.starts_with('#') {
        return Ok(Vec::new(heap));
    }
    line.split(' ')
        .filter(|word| !word.is_empty())
        .collect(heap)
}

/// The words of a line that are still to be read.
#[derive(Drop)]
pub struct Cursor<'a, 'b> {
    pub heap: Global,
    pub rest: &'b [&'a str],
}

impl<'a, 'b> Cursor<'a, 'b> {
    /// Whether every word is read.
    pub fn is_at_end(&self) -> bool {
        self.rest.is_empty()
    }

    /// That every word is read.
    pub fn end(&self) -> Result<(), Reason> {
        match self.rest {
            [] => Ok(()),
            [word, ..] => Err(Reason::Unexpected(String::from_str(self.heap, word)?)),
        }
    }

    /// The next word.
    pub fn take(&mut self, wanted: Wanted) -> Result<&'a str, Reason> {
        let [word, rest @ ..] = self.rest else {
            return Err(Reason::Lacks(wanted));
        };
        self.rest = rest;
        Ok(word)
    }

    /// Whether the next word is this one, which is read then.
    pub fn take_if(&mut self, expected: &str) -> bool {
        match self.rest {
            [word, rest @ ..] if *word == expected => {
                self.rest = rest;
                true
            }
            _ => false,
        }
    }

    /// The next word, as what its type can read.
    pub fn read<T: FromStr + Drop>(&mut self, wanted: Wanted) -> Result<T, Reason>
    where
        T::Err: Drop,
    {
        let word = self.take(wanted)?;
        self.parse(word, wanted)
    }

    /// A word as what its type can read, with no plus sign before it.
    pub fn parse<T: FromStr + Drop>(&self, word: &str, wanted: Wanted) -> Result<T, Reason>
    where
        T::Err: Drop,
    {
        if word.starts_with('+') {
            return Err(self.is_no(word, wanted));
        }
        word.parse::<T>().map_err(|_| self.is_no(word, wanted))
    }

    /// That a word is not what is expected at its place.
    pub fn is_no(&self, word: &str, wanted: Wanted) -> Reason {
        String::from_str(self.heap, word).map_or_else(
            Reason::from,
            |word| Reason::IsNo(word, wanted),
        )
    }
}
