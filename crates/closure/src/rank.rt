// How many nonterminals each nonterminal gets to.
ghost use Rattle.std.specs.Prelude.{List};
ghost use Rattle.rows.specs.declared.row.RuleRow.{RuleRow};
ghost use Rattle.closure.specs.Tables.{ReachTable};
ghost use Rattle.closure.specs.Ranks.{RankTable};

use crate::set::SymbolSet;

// Of the sets that the nonterminals of some rules get to, the sizes.
pub fn ranks(table: &[SymbolSet; 64]) -> [u8; 64]
    ensures { (rules : List RuleRow) → ReachTable rules table.now → RankTable rules result }
{
    table.map(|set| set.len() as u8)
}
