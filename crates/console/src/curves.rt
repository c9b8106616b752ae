//! Curves as they are written in a line.

use crate::cursor::Cursor;
use crate::failure::{Reason, Wanted};
use levels::Level;
use merit::{Draft, Part};

/// The cap of a curve that is written without one.
const NO_CAP: u32 = 1_000_000;

/// A whole curve, up to the end of the line: `PART`, or `PART plus PART`, and after either `cap BOUGHT SOLD`.
pub fn read_draft(words: &mut Cursor<'_, '_>) -> Result<Draft, Reason> {
    let first = read_part(words)?;
    let second = if words.take_if("plus") {
        read_part(words)?
    } else {
        Part::Flat(0)
    };
    let (bought, sold) = if words.take_if("cap") {
        (
            words.read(Wanted::CapNumber)?,
            words.read(Wanted::CapNumber)?,
        )
    } else {
        (NO_CAP, NO_CAP)
    };
    words.end()?;
    Ok(Draft {
        first,
        second,
        bought,
        sold,
    })
}

/// One part of a curve.
fn read_part(words: &mut Cursor<'_, '_>) -> Result<Part, Reason> {
    match words.take(Wanted::Curve)? {
        "linear" => Ok(Part::Linear(read_levels(words)?)),
        "stepped" => Ok(Part::Stepped(read_levels(words)?)),
        "flat" => Ok(Part::Flat(words.read(Wanted::Quantity)?)),
        word => Err(words.is_no(word, Wanted::Curve)),
    }
}

/// The levels up to a `plus`, a `cap` or the end.
fn read_levels(words: &mut Cursor<'_, '_>) -> Result<Vec<Level>, Reason> {
    let mut levels = Vec::new(words.heap);
    for word in words.rest {
        if *word == "plus" || *word == "cap" {
            break;
        }
        let _ = words.take(Wanted::Level)?;
        levels.push(read_level(words, word)?)?;
    }
    Ok(levels)
}

/// A level: `PRICE:QUANTITY`.
fn read_level(words: &Cursor<'_, '_>, word: &str) -> Result<Level, Reason> {
    match word.split_once(':') {
        Some((price, quantity)) => {
            let price = words.parse(price, Wanted::Price)?;
            let quantity = words.parse(quantity, Wanted::Quantity)?;
            Ok(Level { price, quantity })
        }
        None => Err(words.is_no(word, Wanted::Level)),
    }
}
