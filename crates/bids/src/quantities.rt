//! The quantities of a block or a flexible bid.

ghost use Rattle.std.specs.Prelude.{◌≡◌};
ghost use Rattle.bids.specs.Quantities.{side_of, sized, one_side, near};

pub use market::BAD_COUNT;
use market::Side;

/// Whether a quantity is bought or sold.
pub fn side(quantity: i32) -> Side
    ensures { result ≡ side_of quantity }
{
    if quantity < 0 {
        Side::Selling
    } else {
        Side::Buying
    }
}

/// Whether a quantity is not 0, and in size at most the most.
pub fn is_sized(quantity: i32, most: u32) -> bool
    ensures { result ≡ sized most quantity }
{
    (1..=most).contains(&quantity.unsigned_abs())
}

/// Whether two quantities are both bought or both sold.
pub fn are_one_side(first: i32, other: i32) -> bool
    ensures { result ≡ one_side first other }
{
    side(first) == side(other)
}

/// Whether a quantity is in size at most three times and at least a third of the one before.
pub fn is_near(before: i32, quantity: i32) -> bool
    ensures { result ≡ near before quantity }
{
    let earlier = before.unsigned_abs() as u64;
    let size = quantity.unsigned_abs() as u64;
    size <= 3 * earlier && earlier <= 3 * size
}
