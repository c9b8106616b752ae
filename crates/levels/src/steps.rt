//! Stepped curves: the quantity of the last level at or below a price.

ghost use Rattle.std.specs.Prelude.{◌≡◌, ℕ, ◌<◌, min, true, length};
ghost use Rattle.market.specs.Prices.{lawful};
ghost use Rattle.market.specs.declared.sides.Side.TheVariants.{Buying, Selling};
ghost use Rattle.curve.specs.Worth.{WorthIs};
ghost use Rattle.levels.specs.Form.{formed};
ghost use Rattle.levels.specs.Search.{largest as largest_of};
ghost use Rattle.levels.specs.Steps.{stepped, steps_of, OnSteps};
ghost use Rattle.levels.specs.Tables.{in_force_of};
ghost use Rattle.levels.specs.Makers.{MadeStepped};
ghost use Rattle.levels.specs.Fronts.{force_formed};
ghost use Rattle.levels.specs.Chains.{along_laws};
ghost use Rattle.levels.specs.StepRule.{on_step, step_rule};

use crate::level::Level;
use crate::search::{around, largest};
use crate::table::LevelTable;
use curve::{PriceCurve, ValuedCurve};
use market::{HIGHEST_PRICE, Limits, Refusal, Side};

/// A curve that has the quantity of the last level priced at most the price, or of the first level below that.
// Beside `Linear`, and not one type with a rule as its parameter: only `new` and `reach`, a line or two each, are the same.
#[derive(Clone, Copy)]
pub struct Stepped {
    pub table: LevelTable,
}

impl Stepped {
    /// The curve of the levels given, or the refusal of their form.
    pub fn new(levels: &[Level]) -> Result<Stepped, Refusal>
        ensures { MadeStepped levels.now result }
    {
        let table = LevelTable::new(levels)?;
        Ok(Stepped { table })
    }
}

impl PriceCurve for Stepped {
    ghost meaning = { λ c. steps_of (in_force_of c.table) };

    ghost extent = { λ c. largest_of (in_force_of c.table) };

    ghost kept = { unfold stepped in λ c. along_laws on_step step_rule (in_force_of c.table) (force_formed c.table) };

    fn quantity(&self, price: u32) -> i32
        ensures value { result ≡ steps_of (in_force_of self.now.table) price }
        ensures steps { OnSteps (in_force_of self.now.table) (min price 10000000) result }
    {
        around(self.table.in_force(), price.min(HIGHEST_PRICE))
            .at
            .quantity
    }

    fn reach(&self) -> u32 {
        largest(self.table.in_force())
    }
}

impl ValuedCurve for Stepped {
    fn worth(&self, limits: Limits, side: Side, lot: u32) -> Option<u32> {
        if lot == 0 || !limits.is_lawful() {
            return None;
        }
        match side {
            Side::Buying => greatest_buying(self.table.in_force(), limits, lot),
            Side::Selling => least_selling(self.table.in_force(), limits, lot),
        }
    }
}

/// The greatest price within lawful limits at which steps buy a lot: just below the first level that buys fewer.
// Asked, and not carried by a type: a curve and limits are any to every caller, and `worth` alone makes this call.
fn greatest_buying(levels: &[Level], limits: Limits, lot: u32) -> Option<u32>
    requires are_lawful { lawful limits ≡ true }
    requires counted { 0 < lot }
    requires keeps { formed levels.now ≡ true }
    requires any { 0 < length levels.now }
    ensures { WorthIs (steps_of levels.now) limits Buying lot result }
{
    let [first, later @ ..] = levels else {
        return None;
    };
    if Side::Buying.lots(first.quantity) < lot {
        return None;
    }
    for level in later {
        if Side::Buying.lots(level.quantity) < lot {
            if level.price <= limits.lowest {
                return None;
            }
            return Some(limits.highest.min(level.price - 1));
        }
    }
    Some(limits.highest)
}

/// The least price within lawful limits at which steps sell a lot: that of the first level that sells as many.
// Beside `greatest_buying`: the sides look for a level that trades fewer and one that trades as many, and answer by other limits.
fn least_selling(levels: &[Level], limits: Limits, lot: u32) -> Option<u32>
    requires are_lawful { lawful limits ≡ true }
    requires counted { 0 < lot }
    requires keeps { formed levels.now ≡ true }
    requires any { 0 < length levels.now }
    ensures { WorthIs (steps_of levels.now) limits Selling lot result }
{
    let [first, later @ ..] = levels else {
        return None;
    };
    if Side::Selling.lots(first.quantity) >= lot {
        return Some(limits.lowest);
    }
    for level in later {
        if Side::Selling.lots(level.quantity) >= lot {
            if level.price > limits.highest {
                return None;
            }
            return Some(limits.lowest.max(level.price));
        }
    }
    None
}
