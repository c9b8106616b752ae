//! The form of a block, and what a register knows of blocks.

ghost use Rattle.std.specs.Prelude.{refl};
ghost use Rattle.bids.specs.Blocks.{block_profile};
ghost use Rattle.bids.specs.Registers.{block};

use crate::kinds::Bid;
use crate::profiles::Profile;
use crate::quantities::{are_one_side, is_near, is_sized};
use crate::rows::BlockBid;

/// The largest quantity of a block in an hour, bought or sold.
pub const MOST_BLOCK_LOTS: u32 = 6_000;

impl Bid for BlockBid {
    ghost kind = { block };

    ghost MOST_STANDING = { block.most_standing };

    ghost MOST_PLACES = { block.most_places };

    ghost standing_of_kind = { refl };

    ghost places_of_kind = { refl };

    const MOST_STANDING: usize = 50;

    const MOST_PLACES: usize = 1_024;

    fn number(&self) -> u16 {
        self.number
    }

    fn participant(&self) -> u16 {
        self.participant
    }
}

impl Profile for BlockBid {
    ghost profile = { block_profile };

    fn price(&self) -> u32 {
        self.price
    }

    /// Whether the block has 3 to 24 hours, and ends by hour 23.
    fn spans_hours(&self) -> bool {
        (3..=24).contains(&self.hours) && self.first as u32 + self.hours as u32 <= 24
    }

    fn hours(&self) -> u8 {
        self.hours
    }

    fn quantities(&self) -> &[i32] {
        &self.quantities
    }

    fn is_right_at(&self, hour: u8) -> bool {
        let quantity = self.quantity(hour);
        is_sized(quantity, MOST_BLOCK_LOTS)
            && are_one_side(self.quantity(0), quantity)
            && (hour == 0 || is_near(self.quantity(hour - 1), quantity))
    }
}
