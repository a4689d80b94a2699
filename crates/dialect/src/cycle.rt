// The test that no rule's left symbol gets back to itself.
ghost use Rattle.std.specs.Prelude.{ℕ, length};
ghost use Rattle.rows.specs.Rows.{Finds};
ghost use Rattle.closure.specs.Tables.{ReachTable};
ghost use Rattle.dialect.specs.Faults.{OnCycle};

use closure::{Rules, SymbolSet};

// The first rule whose left symbol gets back to itself; `reach` has what each nonterminal gets to.
pub(crate) fn cycle_fault(rules: &Rules, reach: &[SymbolSet; 64]) -> Option<usize>
    requires { ReachTable rules.now.rows.now reach.now }
    ensures { (start : ℕ) → Finds (λ k. OnCycle rules.now.rows.now start k → ⊥) (length rules.now.rows.now) result }
{
    for (i, rule) in rules.rows.iter().enumerate() {
        if reach[(rule.left - 256) as usize].contains(rule.left) {
            return Some(i);
        }
    }
    None
}
