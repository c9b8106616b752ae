//! Up to 64 levels by value, those of them that are in force, and how they are made.

ghost use Rattle.std.specs.Prelude.{◌≡◌, ℕ, ◌≤◌, length};
ghost use Rattle.levels.specs.Form.{kept_front, LongestFront};
ghost use Rattle.levels.specs.Tables.{in_force_of, table_of, Made};

use crate::level::Level;
pub use market::BAD_COUNT;
use market::{Refusal, Rule};

/// The most levels that a curve has.
pub const MOST_LEVELS: usize = 64;

static NO_LEVELS: [Level; 1] = [Level {
    price: 0,
    quantity: 0,
}];

/// Levels by value. Any content has levels in force: the longest front of the first `count` that keeps the form, or
/// the one level (0: 0).
// A count beside an array, and no vector: a table is copied with its bid, any content of it is one, and the library has no heap.
#[derive(Clone, Copy)]
pub struct LevelTable {
    pub levels: [Level; 64],
    pub count: u8,
}

impl LevelTable {
    /// The levels given, or the refusal of a count that is not 1 to 64 or of the first level that breaks the form.
    pub fn new(given: &[Level]) -> Result<LevelTable, Refusal>
        ensures { Made given.now result }
    {
        let count = given.len();
        if count == 0 || count > MOST_LEVELS {
            return Err(Refusal {
                rule: Rule::Form,
                place: BAD_COUNT,
            });
        }
        let kept = front(given);
        if kept < count {
            return Err(Refusal {
                rule: Rule::Form,
                place: kept as u32,
            });
        }
        Ok(LevelTable {
            levels: filled(given),
            count: count as u8,
        })
    }

    /// The levels in force.
    pub fn in_force(&self) -> &[Level]
        ensures { result.now ≡ in_force_of self.now }
    {
        let count = (self.count as usize).min(MOST_LEVELS);
        let kept = front(&self.levels[0..count]);
        if kept == 0 {
            return &NO_LEVELS;
        }
        &self.levels[0..kept]
    }
}

/// The levels, filled up with levels (0: 0).
fn filled(given: &[Level]) -> [Level; 64]
    requires { length given.now ≤ 64 }
    ensures { result ≡ (table_of given.now).levels }
{
    let mut levels = [Level {
        price: 0,
        quantity: 0,
    }; 64];
    levels[..given.len()].copy_from_slice(given);
    levels
}

/// How many levels the longest front has that keeps the form.
pub fn front(levels: &[Level]) -> usize
    ensures value { result ≡ length (kept_front levels.now) }
    ensures longest { LongestFront levels.now result }
{
    let [first, later @ ..] = levels else {
        return 0;
    };
    if !first.is_bounded() {
        return 0;
    }
    let mut last = *first;
    for (i, level) in later.iter().enumerate() {
        if !level.may_follow(last) {
            return i + 1;
        }
        last = *level;
    }
    levels.len()
}
