// For each nonterminal the set of the nonterminals that it gets to in one step or more: Warshall's closure.
ghost use Rattle.std.specs.Prelude.{◌<◌};
ghost use Rattle.closure.specs.Nulls.{NullableSet};
ghost use Rattle.closure.specs.Paths.{Passed, Closure};
ghost use Rattle.closure.specs.Tables.{ReachTable};

use crate::rules::Rules;
use crate::set::SymbolSet;

// Joins in the paths through k.
fn pass(table: &mut [SymbolSet; 64], k: u16)
    requires { k < 64 }
    ensures { Passed table.old k table.new }
{
    let via = table[k as usize];
    for set in table.iter_mut() {
        if set.has(k) {
            *set = set.union(via);
        }
    }
}

// The ends of all paths through the table.
fn close(table: &mut [SymbolSet; 64])
    ensures { Closure table.old table.new }
{
    for k in 0..64 {
        pass(table, k);
    }
}

impl Rules<'_> {
    // For each nonterminal the nonterminals that it gets to; `nullable` is the set of the nullable ones.
    pub fn reach_table(&self, nullable: SymbolSet) -> [SymbolSet; 64]
        requires { NullableSet self.now.rows.now nullable }
        ensures { ReachTable self.now.rows.now result }
    {
        let mut table = self.step_table(nullable);
        close(&mut table);
        table
    }
}
