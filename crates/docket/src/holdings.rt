//! How many bids of each kind a participant has.

ghost use Rattle.std.specs.Prelude.{◌≡◌, ◌&&◌, ◌==◌};
ghost use Rattle.bids.specs.Registers.{hourly as hourly_kind, block as block_kind, flexible as flexible_kind};
ghost use Rattle.register.specs.Order.{tally};
ghost use Rattle.register.specs.Views.{lists};

use register::{Counts, Tables, standing};

/// What a participant has among bids.
pub fn holding_of<C>(bids: Tables<C>, participant: u16) -> Counts
    ensures { result ≡ record { hourly = tally hourly_kind participant (lists bids.entry).hourly; blocks = tally block_kind participant (lists bids.entry).blocks; flexible = tally flexible_kind participant (lists bids.entry).flexible } }
{
    Counts {
        hourly: standing(bids.hourly, participant),
        blocks: standing(bids.blocks, participant),
        flexible: standing(bids.flexible, participant),
    }
}

/// Whether there is no bid.
pub fn has_none(counts: Counts) -> bool
    ensures { result ≡ (counts.hourly == 0) && (counts.blocks == 0 && counts.flexible == 0) }
{
    counts.hourly == 0 && counts.blocks == 0 && counts.flexible == 0
}
