//! Refusing by a rule.

ghost use Rattle.std.specs.Prelude.{◌≡◌, [], ◌∷◌};
ghost use Rattle.bids.specs.Checks.{first_of, broken};

use market::{Refusal, Rule};

/// The refusal by a rule at a place, where the rule is broken.
pub fn refuse_if(is_broken: bool, rule: Rule, place: u32) -> Result<(), Refusal>
    ensures { result ≡ first_of (broken is_broken rule place ∷ []) }
{
    if is_broken {
        Err(Refusal { rule, place })
    } else {
        Ok(())
    }
}
