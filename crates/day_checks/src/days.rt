//! One day, as a program makes it.

ghost use Rattle.std.specs.Prelude.{[], IfOk, Ok};
ghost use Rattle.day.specs.Days.{SinceClosed, noted};
ghost use Rattle.day.specs.declared.calls.Call.TheVariants.{EnterHourly, Close};

use bids::{BlockBid, FlexibleBid, HourlyBid};
use day::{ClosedDay, OpenDay, open};
use levels::Flat;
use market::Refusal;
use register::Tables;

/// Opens a day, enters a bid and closes the day: such a day tells the two calls, both answered as the book answers
/// them.
pub fn one_day(
    hourly: &mut [HourlyBid<Flat>],
    blocks: &[BlockBid],
    flexible: &[FlexibleBid],
    bid: HourlyBid<Flat>,
) -> Result<ClosedDay<Flat>, Refusal>
    ensures { IfOk result (λ closed. SinceClosed (record { lowest = 0; highest = 100 }) (noted (noted [] (record { hourly = hourly.old; blocks = blocks.now; flexible = flexible.now }) (EnterHourly bid) (Ok tt)) (record { hourly = hourly.new; blocks = blocks.now; flexible = flexible.now }) Close (Ok tt)) closed (record { hourly = hourly.new; blocks = blocks.now; flexible = flexible.now })) }
{
    let mut day: OpenDay<Flat> = open(0, 100)?;
    day.enter_hourly(hourly, blocks, flexible, bid)?;
    let tables = Tables {
        hourly,
        blocks,
        flexible,
    };
    day.close(tables).map_err(|(_, refusal)| refusal)
}

#[cfg(test)]
mod tests {
    use super::*;
    use std::test::Fail;

    fn bid(number: u16, hour: u8) -> HourlyBid<Flat> {
        HourlyBid {
            number,
            participant: 1,
            hour,
            curve: Flat { quantity: 5 },
        }
    }

    #[test]
    fn a_bid_is_entered_and_the_day_closed(rt: HostRuntime) {
        let mut hourly = [bid(0, 0); 2];
        assert!(rt; one_day(&mut hourly, &[], &[], bid(7, 3)).is_ok());
        assert_eq!(rt; hourly[0].number, 7);
    }

    #[test]
    fn an_hour_past_the_day_is_refused(rt: HostRuntime) -> Result<(), Fail> {
        let mut hourly = [bid(0, 0); 2];
        let Err(refusal) = one_day(&mut hourly, &[], &[], bid(7, 24)) else {
            return Err(Fail::new("taken"));
        };
        assert_eq!(rt; refusal.place, 24);
        Ok(())
    }
}
