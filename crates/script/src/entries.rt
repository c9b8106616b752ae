//! Lines that enter a bid.

use crate::lines::{Kind, Line};
use bids::{BlockBid, FlexibleBid, HourlyBid};
use console::{Cursor, Reason, Wanted, read_draft};
use merit::Draft;
use std::str::FromStr;

/// The bid of a line that enters one.
pub fn read_entry(words: &mut Cursor<'_, '_>) -> Result<Line, Reason> {
    match words.read(Wanted::Kind)? {
        Kind::Hourly => Ok(Line::EnterHourly(read_hourly(words)?)),
        Kind::Block => Ok(Line::EnterBlock(read_block(words)?)),
        Kind::Flexible => Ok(Line::EnterFlexible(read_flexible(words)?)),
    }
}

/// An hourly bid whose curve is not made yet: `NUMBER PARTICIPANT HOUR CURVE`.
fn read_hourly(words: &mut Cursor<'_, '_>) -> Result<HourlyBid<Draft>, Reason> {
    Ok(HourlyBid {
        number: words.read(Wanted::Number)?,
        participant: words.read(Wanted::Participant)?,
        hour: words.read(Wanted::Hour)?,
        curve: read_draft(words)?,
    })
}

/// A block: `NUMBER PARTICIPANT PRICE FIRST HOURS PARENT Q ..`.
fn read_block(words: &mut Cursor<'_, '_>) -> Result<BlockBid, Reason> {
    Ok(BlockBid {
        number: words.read(Wanted::Number)?,
        participant: words.read(Wanted::Participant)?,
        price: words.read(Wanted::Price)?,
        first: words.read(Wanted::Hour)?,
        hours: words.read(Wanted::HourCount)?,
        parent: read_unless_dash(words, Wanted::Parent)?,
        quantities: read_quantities(words)?,
    })
}

/// The next word, or nothing where it is `-`.
pub(crate) fn read_unless_dash<T: FromStr + Drop>(
    words: &mut Cursor<'_, '_>,
    wanted: Wanted,
) -> Result<Option<T>, Reason>
where
    T::Err: Drop,
{
    if words.take_if("-") {
        return Ok(None);
    }
    Ok(Some(words.read(wanted)?))
}

/// A flexible bid: `NUMBER PARTICIPANT PRICE START LENGTH DURATION Q ..`.
fn read_flexible(words: &mut Cursor<'_, '_>) -> Result<FlexibleBid, Reason> {
    Ok(FlexibleBid {
        number: words.read(Wanted::Number)?,
        participant: words.read(Wanted::Participant)?,
        price: words.read(Wanted::Price)?,
        start: words.read(Wanted::Hour)?,
        length: words.read(Wanted::HourCount)?,
        duration: words.read(Wanted::HourCount)?,
        quantities: read_quantities(words)?,
    })
}

/// The quantities up to the end of the line, with 0 for those that are not given.
fn read_quantities<const MOST: usize>(words: &mut Cursor<'_, '_>) -> Result<[i32; MOST], Reason> {
    let mut quantities = [0; MOST];
    for quantity in quantities.iter_mut() {
        if words.is_at_end() {
            break;
        }
        *quantity = words.read(Wanted::Quantity)?;
    }
    if words.is_at_end() {
        Ok(quantities)
    } else {
        Err(Reason::TooManyQuantities(MOST))
    }
}
