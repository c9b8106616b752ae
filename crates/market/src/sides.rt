//! Buying and selling.

ghost use Rattle.std.specs.Prelude.{◌≡◌};
ghost use Rattle.market.specs.Lots.{traded};

/// Whether lots are bought or sold.
#[derive(Clone, Copy, PartialEq, Eq, Debug)]
pub enum Side {
    Buying,
    Selling,
}

impl Side {
    /// How many lots of a quantity are traded on this side: a quantity above 0 is bought, one below 0 is sold.
    pub fn lots(self, quantity: i32) -> u32
        ensures { result ≡ traded self quantity }
    {
        match self {
            Side::Buying if quantity > 0 => quantity.unsigned_abs(),
            Side::Selling if quantity < 0 => quantity.unsigned_abs(),
            _ => 0,
        }
    }
}
