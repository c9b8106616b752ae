//! Linear curves: the straight line between levels, rounded to the nearest lot.

ghost use Rattle.std.specs.Prelude.{◌≡◌, ℕ, ◌<◌, min, true, pos, ◌<ℤ◌};
ghost use Rattle.std.specs.Int.{int_div_euclid};
ghost use Rattle.levels.specs.Form.{bounded, follows};
ghost use Rattle.levels.specs.Search.{largest as largest_of};
ghost use Rattle.levels.specs.Lines.{between as between_of, nearest as nearest_of, linear, Nearest, Moderate, OnLine, on_line};
ghost use Rattle.levels.specs.Tables.{in_force_of};
ghost use Rattle.levels.specs.Makers.{MadeLinear};
ghost use Rattle.levels.specs.Fronts.{force_formed};
ghost use Rattle.levels.specs.Chains.{along_laws};
ghost use Rattle.levels.specs.LinesLemmas.{line_rule};

use crate::level::Level;
use crate::search::{around, largest};
use crate::table::LevelTable;
use curve::{PriceCurve, ValuedCurve};
use market::{HIGHEST_PRICE, Refusal};

/// A curve that follows the straight line from level to level, and has the nearest level's quantity outside them.
#[derive(Clone, Copy)]
pub struct Linear {
    pub table: LevelTable,
}

impl Linear {
    /// The curve through the levels given, or the refusal of their form.
    pub fn new(levels: &[Level]) -> Result<Linear, Refusal>
        ensures { MadeLinear levels.now result }
    {
        let table = LevelTable::new(levels)?;
        Ok(Linear { table })
    }
}

impl PriceCurve for Linear {
    ghost meaning = { λ c p. linear (in_force_of c.table) (min p 10000000) };

    ghost extent = { λ c. largest_of (in_force_of c.table) };

    ghost kept = { unfold linear in λ c. along_laws on_line line_rule (in_force_of c.table) (force_formed c.table) };

    fn quantity(&self, price: u32) -> i32
        ensures value { result ≡ linear (in_force_of self.now.table) (min price 10000000) }
        ensures line { OnLine (in_force_of self.now.table) (min price 10000000) result }
    {
        let price = price.min(HIGHEST_PRICE);
        let neighbours = around(self.table.in_force(), price);
        match neighbours.next {
            None => neighbours.at.quantity,
            Some(next) => between(neighbours.at, next, price),
        }
    }

    fn reach(&self) -> u32 {
        largest(self.table.in_force())
    }
}

impl ValuedCurve for Linear {}

/// The quantity at a price on the straight line from one level to a later one, rounded to the nearest lot, halves
/// upward. The quantity of the first level holds before it.
fn between(from: Level, to: Level, price: u32) -> i32
    requires from_bounded { bounded from ≡ true }
    requires to_follows { follows from to ≡ true }
    requires before_to { price < to.price }
    ensures { result ≡ between_of from to price }
{
    let span = to.price - from.price;
    let past = price.saturating_sub(from.price);
    let change = to.quantity as i64 - from.quantity as i64;
    let scaled = from.quantity as i64 * span as i64 + change * past as i64;
    nearest(scaled, span) as i32
}

/// The whole number nearest to a fraction, halves upward: the floor of the fraction and one half.
fn nearest(numerator: i64, denominator: u32) -> i64
    requires positive { 0 < denominator }
    requires moderate { Moderate numerator }
    ensures value { result ≡ nearest_of numerator denominator }
    ensures nearest { Nearest numerator denominator result }
{
    let whole = denominator as i64;
    floored(2 * numerator + whole, 2 * whole)
}

/// The greatest whole number that is at most a fraction, below 0 too.
fn floored(numerator: i64, denominator: i64) -> i64
    requires { pos 0 <ℤ denominator }
    ensures { result ≡ int_div_euclid numerator denominator }
{
    numerator.div_euclid(denominator)
}
