//! One level of a curve.

ghost use Rattle.std.specs.Prelude.{◌≡◌};
ghost use Rattle.levels.specs.Form.{bounded, follows};

use market::HIGHEST_PRICE;

/// The most lots of a level or a flat curve, bought or sold.
pub const MOST_LOTS: i32 = 100_000;

/// A price, and the quantity at it.
#[derive(Clone, Copy, PartialEq, Eq, Debug)]
pub struct Level {
    pub price: u32,
    pub quantity: i32,
}

impl Level {
    /// Whether the price and the quantity are in bounds.
    pub fn is_bounded(self) -> bool
        ensures { result ≡ bounded self }
    {
        self.price <= HIGHEST_PRICE && -MOST_LOTS <= self.quantity && self.quantity <= MOST_LOTS
    }

    /// Whether this level may come straight after another: in bounds, at a higher price, with no more lots.
    pub fn may_follow(self, earlier: Level) -> bool
        ensures { result ≡ follows earlier self }
    {
        self.is_bounded() && earlier.price < self.price && self.quantity <= earlier.quantity
    }
}
