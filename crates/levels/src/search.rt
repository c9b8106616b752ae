//! Where a price lies among levels.

ghost use Rattle.std.specs.Prelude.{◌≡◌};
ghost use Rattle.levels.specs.Search.{around as around_of, largest as largest_of};

use crate::level::Level;

/// The last level priced at most a price, or the first where there is none, and the level after that.
#[derive(Clone, Copy)]
pub struct Neighbours {
    pub at: Level,
    pub next: Option<Level>,
}

/// The neighbours of a price among levels of rising price.
pub fn around(levels: &[Level], price: u32) -> Neighbours
    ensures { result ≡ around_of levels.now price }
{
    let [first, later @ ..] = levels else {
        return Neighbours {
            at: Level {
                price: 0,
                quantity: 0,
            },
            next: None,
        };
    };
    let mut at = *first;
    for level in later {
        if price < level.price {
            return Neighbours {
                at,
                next: Some(*level),
            };
        }
        at = *level;
    }
    Neighbours { at, next: None }
}

/// The largest quantity of the levels, bought or sold.
pub fn largest(levels: &[Level]) -> u32
    ensures { result ≡ largest_of levels.now }
{
    let mut most = 0;
    for level in levels {
        most = level.quantity.unsigned_abs().max(most);
    }
    most
}
