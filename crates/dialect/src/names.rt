// The test that every nonterminal that a row names has a rule.
ghost use Rattle.std.specs.Prelude.{◌≡◌, ℕ, ◌+◌, ◌<◌, true, length, Decides, slice_index_or};
ghost use Rattle.rows.specs.Rows.{no_place, Nonterminal, Finds};
ghost use Rattle.closure.specs.Sets.{in_set};
ghost use Rattle.dialect.specs.Faults.{Ruled, NamesOk};

use closure::{Rules, SymbolSet};
use rows::{RuleRow, nonterminal};

// The set of the nonterminals that have a rule.
fn ruled(rules: &Rules) -> SymbolSet
    ensures { (a : ℕ) → Decides (in_set result a) (Ruled rules.now.rows.now a) }
{
    let mut out = SymbolSet::new();
    for rule in rules.rows {
        out = out.with(rule.left);
    }
    out
}

// Whether the set has every nonterminal at the places of the rule.
fn names_within(row: &RuleRow, set: SymbolSet) -> bool
    ensures { Decides result ((k : ℕ) → k < row.now.count → Nonterminal (slice_index_or row.now.places k no_place).symbol → in_set set (slice_index_or row.now.places k no_place).symbol ≡ true) }
{
    row.counted().iter().all(|place| !nonterminal(place.symbol) || set.contains(place.symbol))
}

// The first row that names a nonterminal without a rule; the start is the row after the last rule.
pub(crate) fn name_fault(rules: &Rules, start: u16) -> Option<usize>
    ensures { Finds (NamesOk rules.now.rows.now start) (length rules.now.rows.now + 1) result }
{
    let set = ruled(rules);
    let fault = rules.rows.iter().position(|row| !names_within(row, set));
    fault.or((!set.contains(start)).then_some(rules.rows.len()))
}
