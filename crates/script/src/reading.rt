//! From text to lines.

use crate::entries::{read_entry, read_unless_dash};
use crate::lines::{Extract, Line, ProposalPart, Window};
use console::{Cursor, Reason, Wanted, words_of};
use docket::Opening;
use register::Counts;
use std::alloc::Global;

/// The places of a day's tables where its opening names none.
pub const USUAL_PLACES: Counts = Counts {
    hourly: 4_096,
    blocks: 1_024,
    flexible: 512,
};

/// The number that stands in a script for no start, as `-` does.
const NO_START: u8 = 255;

/// What a line says, if it is not blank and no comment, or why it cannot be read.
pub fn read_line(heap: Global, text: &str) -> Result<Option<Line>, Reason> {
    let words = words_of(heap, text)?;
    let mut words = Cursor {
        heap,
        rest: words.as_slice(),
    };
    if words.is_at_end() {
        return Ok(None);
    }
    let line = read_call(&mut words)?;
    words.end()?;
    Ok(Some(line))
}

/// A call, or a part of a proposal.
fn read_call(words: &mut Cursor<'_, '_>) -> Result<Line, Reason> {
    match words.take(Wanted::Call)? {
        "open" => Ok(Line::Open(read_opening(words)?)),
        "enter" => read_entry(words),
        "withdraw" => {
            let kind = words.read(Wanted::Kind)?;
            Ok(Line::Withdraw(kind, words.read(Wanted::Number)?))
        }
        "close" => Ok(Line::Close),
        "prices" => Ok(Line::Set(ProposalPart::Prices(read_prices(words)?))),
        "matches" => {
            let matches = read_each(words, |words| words.read(Wanted::Match))?;
            Ok(Line::Set(ProposalPart::Matches(matches)))
        },
        "marks" => {
            let marks = read_each(words, |words| words.read(Wanted::Mark))?;
            Ok(Line::Set(ProposalPart::Marks(marks)))
        },
        "starts" => {
            let starts = read_each(words, |words| read_start(words))?;
            Ok(Line::Set(ProposalPart::Starts(starts)))
        },
        "propose" => Ok(Line::Propose),
        "lines" => Ok(Line::Lines(read_extract(words)?)),
        word => Err(words.is_no(word, Wanted::Call)),
    }
}

/// What a day is opened with: `PMIN PMAX`, then maybe `tables H B F`, and after that maybe `record M K S`.
fn read_opening(words: &mut Cursor<'_, '_>) -> Result<Opening, Reason> {
    let lowest = words.read(Wanted::Price)?;
    let highest = words.read(Wanted::Price)?;
    let mut tables = USUAL_PLACES;
    let mut record = USUAL_PLACES;
    if words.take_if("tables") {
        tables = read_places(words)?;
        record = tables;
        if words.take_if("record") {
            record = read_places(words)?;
        }
    }
    Ok(Opening {
        lowest,
        highest,
        tables,
        record,
    })
}

/// Three counts of places.
fn read_places(words: &mut Cursor<'_, '_>) -> Result<Counts, Reason> {
    Ok(Counts {
        hourly: words.read(Wanted::Places)?,
        blocks: words.read(Wanted::Places)?,
        flexible: words.read(Wanted::Places)?,
    })
}

/// The prices of a proposal, one for each hour.
fn read_prices(words: &mut Cursor<'_, '_>) -> Result<[u32; 24], Reason> {
    let mut prices = [0; 24];
    for price in prices.iter_mut() {
        *price = words.read(Wanted::Price)?;
    }
    Ok(prices)
}

/// What the words up to the end of the line are read as, one by one.
fn read_each<T: Drop, F: Fn(&mut Cursor<'_, '_>) -> Result<T, Reason>>(
    words: &mut Cursor<'_, '_>,
    read: F,
) -> Result<Vec<T>, Reason>
    requires { F.IsAlwaysCallable read }
{
    let mut items = Vec::new(words.heap);
    for _ in words.rest {
        items.push(read(words)?)?;
    }
    Ok(items)
}

/// A start of a proposal, or none where it is `-`, or the number that stands for none.
fn read_start(words: &mut Cursor<'_, '_>) -> Result<Option<u8>, Reason> {
    let start = read_unless_dash(words, Wanted::Start)?;
    Ok(start.filter(|start| *start != NO_START))
}

/// Which settlement lines are asked for: `HOUR`, then maybe `from F of N`.
fn read_extract(words: &mut Cursor<'_, '_>) -> Result<Extract, Reason> {
    let hour = words.read(Wanted::Hour)?;
    if !words.take_if("from") {
        return Ok(Extract { hour, window: None });
    }
    let from = words.read(Wanted::LineNumber)?;
    if !words.take_if("of") {
        let word = words.take(Wanted::Of)?;
        return Err(words.is_no(word, Wanted::Of));
    }
    let length = words.read(Wanted::LineNumber)?;
    Ok(Extract {
        hour,
        window: Some(Window { from, length }),
    })
}
