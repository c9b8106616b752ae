//! Reading the text of an hour.

ghost use Rattle.std.specs.Prelude.{◌≡◌, true, IfOk};
ghost use Rattle.market.specs.Prices.{lawful};

use crate::cursor::{Cursor, words_of};
use crate::curves::read_draft;
use crate::failure::{Failure, Reason, Wanted};
use crate::sheet::Sheet;
use market::Limits;
use std::alloc::Global;

/// The hour that a text has, or why one of its lines cannot be read.
pub fn read(heap: Global, text: &str) -> Result<Sheet, Failure> {
    let mut sheet: Option<Sheet> = None;
    for (number, line) in (1..).zip(text.lines()) {
        sheet = read_line(heap, number, line, sheet).map_err(|reason| Failure::Line(
            number, reason,
        ))?;
    }
    sheet.ok_or_else(|| {
        let after = text.lines().count().saturating_add(1);
        Failure::Line(after, Reason::NoLimits)
    })
}

/// What there is after one more line.
fn read_line(
    heap: Global,
    number: usize,
    line: &str,
    before: Option<Sheet>,
) -> Result<Option<Sheet>, Reason> {
    let words = words_of(heap, line)?;
    let mut words = Cursor {
        heap,
        rest: words.as_slice(),
    };
    if words.is_at_end() {
        return Ok(before);
    }
    match before {
        None => {
            let limits = read_limits(&mut words)?;
            Ok(Some(Sheet::new(heap, limits)))
        }
        Some(mut sheet) => {
            read_bid(number, &mut words, &mut sheet)?;
            Ok(Some(sheet))
        }
    }
}

/// The limits of a line: `limits PMIN PMAX`.
fn read_limits(words: &mut Cursor<'_, '_>) -> Result<Limits, Reason>
    ensures { IfOk result (λ limits. lawful limits ≡ true) }
{
    if !words.take_if("limits") {
        return Err(Reason::NoLimits);
    }
    let lowest = words.read(Wanted::Price)?;
    let highest = words.read(Wanted::Price)?;
    words.end()?;
    Limits::new(lowest, highest).map_err(Reason::LimitsRefused)
}

/// Adds the bid of a line: `NAME: CURVE`, or `CURVE` alone, which is named by its line.
fn read_bid(number: usize, words: &mut Cursor<'_, '_>, sheet: &mut Sheet) -> Result<(), Reason> {
    if words.take_if("limits") {
        return Err(Reason::LimitsAgain);
    }
    let name = read_name(number, words)?;
    let draft = read_draft(words)?;
    sheet.add(name, &draft)
}

/// The name of a bid: a word that ends in its only colon and has more than that, or else its line.
fn read_name(number: usize, words: &mut Cursor<'_, '_>) -> Result<String, Reason> {
    if let [first, rest @ ..] = words.rest
        && let Some(name) = first.strip_suffix(':')
    {
        if name.is_empty() || name.contains(':') {
            return Err(words.is_no(name, Wanted::Name));
        }
        words.rest = rest;
        return Ok(String::from_str(words.heap, name)?);
    }
    Ok(format!(in words.heap; "line {number}")?)
}
