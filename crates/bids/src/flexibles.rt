//! The form of a flexible bid, its starts, and what a register knows of flexible bids.

ghost use Rattle.std.specs.Prelude.{◌≡◌, refl};
ghost use Rattle.bids.specs.Flexibles.{flexible_profile, starts_of, start_allowed};
ghost use Rattle.bids.specs.Registers.{flexible};

use crate::kinds::Bid;
use crate::profiles::Profile;
use crate::quantities::{are_one_side, is_sized};
use crate::rows::FlexibleBid;

/// The largest quantity of a flexible bid in an hour, bought or sold.
pub const MOST_FLEXIBLE_LOTS: u32 = 1_000;

/// The number of starts: a row for each window of 8 to 24 hours, a column for each duration of 1 to 4. The market states
/// the numbers as this table.
static START_COUNTS: [[u8; 4]; 17] = [
    [8, 7, 6, 5],
    [9, 8, 7, 6],
    [10, 9, 8, 7],
    [11, 10, 9, 8],
    [12, 11, 10, 9],
    [13, 12, 11, 10],
    [14, 13, 12, 11],
    [15, 14, 13, 12],
    [16, 15, 14, 13],
    [17, 16, 15, 14],
    [18, 17, 16, 15],
    [19, 18, 17, 16],
    [20, 19, 18, 17],
    [21, 20, 19, 18],
    [22, 21, 20, 19],
    [23, 22, 21, 20],
    [24, 23, 22, 21],
];

impl Bid for FlexibleBid {
    ghost kind = { flexible };

    ghost MOST_STANDING = { flexible.most_standing };

    ghost MOST_PLACES = { flexible.most_places };

    ghost standing_of_kind = { refl };

    ghost places_of_kind = { refl };

    const MOST_STANDING: usize = 6;

    const MOST_PLACES: usize = 512;

    fn number(&self) -> u16 {
        self.number
    }

    fn participant(&self) -> u16 {
        self.participant
    }
}

impl Profile for FlexibleBid {
    ghost profile = { flexible_profile };

    fn price(&self) -> u32 {
        self.price
    }

    /// Whether the window has 8 to 24 hours and ends by hour 23, and the duration is 1 to 4.
    fn spans_hours(&self) -> bool {
        (8..=24).contains(&self.length)
            && self.start as u32 + self.length as u32 <= 24
            && (1..=4).contains(&self.duration)
    }

    fn hours(&self) -> u8 {
        self.duration
    }

    fn quantities(&self) -> &[i32] {
        &self.quantities
    }

    fn is_right_at(&self, hour: u8) -> bool {
        let quantity = self.quantity(hour);
        is_sized(quantity, MOST_FLEXIBLE_LOTS) && are_one_side(self.quantity(0), quantity)
    }
}

impl FlexibleBid {
    /// How many starts the bid has; none where its window or its duration is not allowed.
    pub fn starts(&self) -> u8
        ensures { result ≡ starts_of self.now }
    {
        if self.spans_hours() {
            START_COUNTS[self.length as usize - 8][self.duration as usize - 1]
        } else {
            0
        }
    }

    /// Whether the bid may start at an hour.
    pub fn allows(&self, start: u8) -> bool
        ensures { result ≡ start_allowed self.now start }
    {
        self.start <= start && start - self.start < self.starts()
    }
}
