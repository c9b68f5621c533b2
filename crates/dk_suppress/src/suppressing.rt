// Whether an instance is suppressed.
ghost use Rattle.std.specs.Prelude.{◌≡◌, All, IsTrue};
ghost use Rattle.std.specs.List.{list_all};
ghost use Rattle.dk_suppress.specs.Rules.{has_rule, is_suppressed};
ghost use Rattle.dk_template.specs.Admitted.{admits};
ghost use Rattle.dk_template.specs.Premises.{IsUsable, premise_fits};

use crate::rules::rules_of;
use dk_base::VarId;
use dk_template::{Answers, Premise, RowId};

// Whether all premises fit.
fn all_fit<A: Answers>(premises: &[Premise], vars: &[VarId], answers: &A) -> bool
    requires { All (λ p. IsUsable (A.grammar answers.now) (A.infos answers.now) p vars.now) premises.now }
    ensures { result ≡ list_all (λ p. premise_fits (A.answered answers.now) p vars.now) premises.now }
{
    for premise in premises {
        if !answers.premise(premise, vars) {
            return false;
        }
    }
    true
}

/// Whether all premises of some rule of the row fit over the variables, as the answers tell. A row without a rule isn't suppressed.
/// Variables of a premise that may be exchanged are given in the rule's order, since answers take them in any order. It takes no
/// memory.
pub fn suppressed<A: Answers>(row: RowId, vars: &[VarId], answers: &A) -> bool
    requires { IsTrue (has_rule row) → IsTrue (admits row (A.infos answers.now) vars.now) }
    ensures { result ≡ is_suppressed (A.answered answers.now) row vars.now }
{
    for rule in rules_of(row) {
        if all_fit(rule.premises, vars, answers) {
            return true;
        }
    }
    false
}
