// For each nonterminal the set of the nonterminals that it steps to.
ghost use Rattle.std.specs.Prelude.{ℕ, length, Decides};
ghost use Rattle.rows.specs.Rows.{Nonterminal};
ghost use Rattle.closure.specs.Sets.{in_set};
ghost use Rattle.closure.specs.Tables.{OthersIn, StepsBy, StepTable};

use crate::rules::Rules;
use crate::set::SymbolSet;
use rows::{RuleRow, nonterminal};

// Whether the set has the symbol of every place of the rule but j.
fn others_in(row: &RuleRow, set: SymbolSet, j: usize) -> bool
    ensures { Decides result (OthersIn set row.now j) }
{
    row.counted()
        .iter()
        .enumerate()
        .all(|(k, place)| k == j || set.contains(place.symbol))
}

// The nonterminals that the rule's left symbol steps to by this rule.
fn steps_of(row: &RuleRow, nullable: SymbolSet) -> SymbolSet
    ensures { (b : ℕ) → Decides (in_set result b) (Nonterminal b × StepsBy nullable row.now row.now.count b) }
{
    let mut out = SymbolSet::new();
    for (j, place) in row.counted().iter().enumerate() {
        if nonterminal(place.symbol) && others_in(row, nullable, j) {
            out = out.with(place.symbol);
        }
    }
    out
}

impl Rules<'_> {
    // For each nonterminal the nonterminals that it steps to.
    pub(crate) fn step_table(&self, nullable: SymbolSet) -> [SymbolSet; 64]
        ensures { StepTable self.now.rows.now nullable (length self.now.rows.now) result }
    {
        let mut table = [SymbolSet::new(); 64];
        for row in self.rows {
            let k = (row.left - 256) as usize;
            table[k] = table[k].union(steps_of(row, nullable));
        }
        table
    }
}
