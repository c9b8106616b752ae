//! Withdrawing bids.

ghost use Rattle.day.specs.Days.{Done, TellsOn};
ghost use Rattle.day.specs.declared.calls.Call.TheVariants.{WithdrawHourly, WithdrawBlock, WithdrawFlexible};

use crate::states::OpenDay;
use bids::{BlockBid, FlexibleBid, HourlyBid};
use curve::PriceCurve;
use market::Refusal;
use register::{Tables, check_registers};

// One for each register: each lends another of the three tables mutably, and to say which by a trait takes associated
// types with parameters, which Rattle has not.
impl<C: PriceCurve + Copy> OpenDay<C> {
    /// Withdraws an hourly bid by its number, or is refused and alters nothing.
    pub fn withdraw_hourly(
        &mut self,
        hourly: &mut [HourlyBid<C>],
        blocks: &[BlockBid],
        flexible: &[FlexibleBid],
        number: u16,
    ) -> Result<(), Refusal>
        ensures exact { Done (WithdrawHourly number) self.old (record { hourly = hourly.old; blocks = blocks.now; flexible = flexible.now }) result self.new (record { hourly = hourly.new; blocks = blocks.now; flexible = flexible.now }) }
        ensures since { TellsOn (WithdrawHourly number) self.old (record { hourly = hourly.old; blocks = blocks.now; flexible = flexible.now }) result self.new (record { hourly = hourly.new; blocks = blocks.now; flexible = flexible.now }) }
    {
        let tables = Tables {
            hourly,
            blocks,
            flexible,
        };
        check_registers(self.limits, self.counts, tables)?;
        register::withdraw(hourly, &mut self.counts.hourly, number)
    }

    /// Withdraws a block by its number, or is refused and alters nothing.
    pub fn withdraw_block(
        &mut self,
        hourly: &[HourlyBid<C>],
        blocks: &mut [BlockBid],
        flexible: &[FlexibleBid],
        number: u16,
    ) -> Result<(), Refusal>
        ensures exact { Done (WithdrawBlock number) self.old (record { hourly = hourly.now; blocks = blocks.old; flexible = flexible.now }) result self.new (record { hourly = hourly.now; blocks = blocks.new; flexible = flexible.now }) }
        ensures since { TellsOn (WithdrawBlock number) self.old (record { hourly = hourly.now; blocks = blocks.old; flexible = flexible.now }) result self.new (record { hourly = hourly.now; blocks = blocks.new; flexible = flexible.now }) }
    {
        let tables = Tables {
            hourly,
            blocks,
            flexible,
        };
        check_registers(self.limits, self.counts, tables)?;
        register::withdraw(blocks, &mut self.counts.blocks, number)
    }

    /// Withdraws a flexible bid by its number, or is refused and alters nothing.
    pub fn withdraw_flexible(
        &mut self,
        hourly: &[HourlyBid<C>],
        blocks: &[BlockBid],
        flexible: &mut [FlexibleBid],
        number: u16,
    ) -> Result<(), Refusal>
        ensures exact { Done (WithdrawFlexible number) self.old (record { hourly = hourly.now; blocks = blocks.now; flexible = flexible.old }) result self.new (record { hourly = hourly.now; blocks = blocks.now; flexible = flexible.new }) }
        ensures since { TellsOn (WithdrawFlexible number) self.old (record { hourly = hourly.now; blocks = blocks.now; flexible = flexible.old }) result self.new (record { hourly = hourly.now; blocks = blocks.now; flexible = flexible.new }) }
    {
        let tables = Tables {
            hourly,
            blocks,
            flexible,
        };
        check_registers(self.limits, self.counts, tables)?;
        register::withdraw(flexible, &mut self.counts.flexible, number)
    }
}
