//! Closing a day.

ghost use Rattle.register.specs.Views.{lists};
ghost use Rattle.day.specs.Days.{Closed, TellsOnClosed};

use crate::states::{ClosedDay, OpenDay};
use curve::PriceCurve;
use market::Refusal;
use register::{Tables, check_registers};

impl<C: PriceCurve + Copy> OpenDay<C> {
    /// Closes the day with its bids, or is refused and gives the day back as it was.
    pub fn close(self, tables: Tables<C>) -> Result<ClosedDay<C>, (OpenDay<C>, Refusal)>
        ensures exact { Closed self (lists tables.entry) result }
        ensures since { TellsOnClosed self (lists tables.entry) result }
    {
        if let Err(refusal) = check_registers(self.limits, self.counts, tables) {
            return Err((self, refusal));
        }
        let OpenDay {
            limits,
            counts,
            curve,
        } = self;
        Ok(ClosedDay {
            limits,
            counts,
            curve,
        })
    }
}
