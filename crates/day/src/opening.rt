//! Opening a day.

ghost use Rattle.day.specs.Days.{Opened, TellsNone};

use crate::states::OpenDay;
use curve::PriceCurve;
use market::{Limits, Refusal};
use register::Counts;
use std::marker::PhantomData;

/// A day without bids under the two prices as its limits, whatever lies in the tables, or the refusal of the limits.
// The two prices are no `Limits` yet: those that are no lawful limits are refused.
pub fn open<C: PriceCurve>(lowest: u32, highest: u32) -> Result<OpenDay<C>, Refusal>
    ensures exact { Opened (record { lowest = lowest; highest = highest }) result }
    ensures since { TellsNone (record { lowest = lowest; highest = highest }) result }
{
    let limits = Limits::new(lowest, highest)?;
    Ok(OpenDay {
        limits,
        counts: Counts {
            hourly: 0,
            blocks: 0,
            flexible: 0,
        },
        curve: PhantomData,
    })
}
