//! Entering bids.

ghost use Rattle.day.specs.Days.{Done, TellsOn};
ghost use Rattle.day.specs.declared.calls.Call.TheVariants.{EnterHourly, EnterBlock, EnterFlexible};

use crate::states::OpenDay;
use bids::{BlockBid, FlexibleBid, HourlyBid};
use curve::PriceCurve;
use market::Refusal;
use register::{Tables, check_registers};

// One for each register: each lends another of the three tables mutably, and to say which by a trait takes associated
// types with parameters, which Rattle has not.
impl<C: PriceCurve + Copy> OpenDay<C> {
    /// Enters an hourly bid, or is refused and alters nothing.
    pub fn enter_hourly(
        &mut self,
        hourly: &mut [HourlyBid<C>],
        blocks: &[BlockBid],
        flexible: &[FlexibleBid],
        bid: HourlyBid<C>,
    ) -> Result<(), Refusal>
        ensures exact { Done (EnterHourly bid) self.old (record { hourly = hourly.old; blocks = blocks.now; flexible = flexible.now }) result self.new (record { hourly = hourly.new; blocks = blocks.now; flexible = flexible.now }) }
        ensures since { TellsOn (EnterHourly bid) self.old (record { hourly = hourly.old; blocks = blocks.now; flexible = flexible.now }) result self.new (record { hourly = hourly.new; blocks = blocks.now; flexible = flexible.now }) }
    {
        let tables = Tables {
            hourly,
            blocks,
            flexible,
        };
        check_registers(self.limits, self.counts, tables)?;
        register::enter(self.limits, hourly, &mut self.counts.hourly, bid)
    }

    /// Enters a block, or is refused and alters nothing.
    pub fn enter_block(
        &mut self,
        hourly: &[HourlyBid<C>],
        blocks: &mut [BlockBid],
        flexible: &[FlexibleBid],
        bid: BlockBid,
    ) -> Result<(), Refusal>
        ensures exact { Done (EnterBlock bid) self.old (record { hourly = hourly.now; blocks = blocks.old; flexible = flexible.now }) result self.new (record { hourly = hourly.now; blocks = blocks.new; flexible = flexible.now }) }
        ensures since { TellsOn (EnterBlock bid) self.old (record { hourly = hourly.now; blocks = blocks.old; flexible = flexible.now }) result self.new (record { hourly = hourly.now; blocks = blocks.new; flexible = flexible.now }) }
    {
        let tables = Tables {
            hourly,
            blocks,
            flexible,
        };
        check_registers(self.limits, self.counts, tables)?;
        register::enter(self.limits, blocks, &mut self.counts.blocks, bid)
    }

    /// Enters a flexible bid, or is refused and alters nothing.
    pub fn enter_flexible(
        &mut self,
        hourly: &[HourlyBid<C>],
        blocks: &[BlockBid],
        flexible: &mut [FlexibleBid],
        bid: FlexibleBid,
    ) -> Result<(), Refusal>
        ensures exact { Done (EnterFlexible bid) self.old (record { hourly = hourly.now; blocks = blocks.now; flexible = flexible.old }) result self.new (record { hourly = hourly.now; blocks = blocks.now; flexible = flexible.new }) }
        ensures since { TellsOn (EnterFlexible bid) self.old (record { hourly = hourly.now; blocks = blocks.now; flexible = flexible.old }) result self.new (record { hourly = hourly.now; blocks = blocks.now; flexible = flexible.new }) }
    {
        let tables = Tables {
            hourly,
            blocks,
            flexible,
        };
        check_registers(self.limits, self.counts, tables)?;
        register::enter(self.limits, flexible, &mut self.counts.flexible, bid)
    }
}
