//! One kind of curve that is linear, stepped or flat, so that a day may mix them.

ghost use Rattle.std.specs.Prelude.{◌≡◌};
ghost use Rattle.levels.specs.Kinds.{level_quantity, level_reach};
ghost use Rattle.levels.specs.declared.kinds.LevelCurve.TheVariants.{Linear, Stepped, Flat};
ghost use Rattle.levels.specs.Lines.{linear, on_line};
ghost use Rattle.levels.specs.Steps.{stepped};
ghost use Rattle.levels.specs.Tables.{in_force_of};
ghost use Rattle.levels.specs.Fronts.{force_formed};
ghost use Rattle.levels.specs.Chains.{along_laws};
ghost use Rattle.levels.specs.LinesLemmas.{line_rule};
ghost use Rattle.levels.specs.FlatLaws.{flat_laws};
ghost use Rattle.levels.specs.StepRule.{on_step, step_rule};

use crate::constant::Flat;
use crate::line::Linear;
use crate::steps::Stepped;
use curve::{PriceCurve, ValuedCurve};
use market::{Limits, Side};

/// A linear, stepped or flat curve.
#[derive(Clone, Copy)]
pub enum LevelCurve {
    Linear(Linear),
    Stepped(Stepped),
    Flat(Flat),
}

impl PriceCurve for LevelCurve {
    ghost meaning = { level_quantity };

    ghost extent = { level_reach };

    ghost kept = { unfold linear stepped in
        elim [
          | Linear c ↦ along_laws on_line line_rule (in_force_of c.table) (force_formed c.table)
          | Stepped c ↦ along_laws on_step step_rule (in_force_of c.table) (force_formed c.table)
          | Flat c ↦ flat_laws c.quantity
        ] };

    fn quantity(&self, price: u32) -> i32 {
        match self {
            LevelCurve::Linear(curve) => curve.quantity(price),
            LevelCurve::Stepped(curve) => curve.quantity(price),
            LevelCurve::Flat(curve) => curve.quantity(price),
        }
    }

    fn reach(&self) -> u32 {
        match self {
            LevelCurve::Linear(curve) => curve.reach(),
            LevelCurve::Stepped(curve) => curve.reach(),
            LevelCurve::Flat(curve) => curve.reach(),
        }
    }
}

impl ValuedCurve for LevelCurve {
    fn worth(&self, limits: Limits, side: Side, lot: u32) -> Option<u32> {
        match self {
            LevelCurve::Linear(curve) => curve.worth(limits, side, lot),
            LevelCurve::Stepped(curve) => curve.worth(limits, side, lot),
            LevelCurve::Flat(curve) => curve.worth(limits, side, lot),
        }
    }
}
