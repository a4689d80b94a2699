// A dialect whose rows passed the tests, with its nullable symbols and its ranks.
ghost use Rattle.std.specs.Prelude.{◌+◌, length};
ghost use Rattle.grammar.specs.Steps.{Acyclic};
ghost use Rattle.rows.specs.Meaning.{grammar_of_rows};
ghost use Rattle.rows.specs.Rows.{LiteralOk, RowOk};
ghost use Rattle.closure.specs.Ranks.{RankTable};
ghost use Rattle.dialect.specs.Faults.{Few, NamesOk};
ghost use Rattle.dialect.specs.Invariants.{Faultless, Nulls};

use closure::SymbolSet;
use rows::{LiteralRow, RuleRow};

mod first;
mod load;
mod view;

// `nullable` is the set of the nullable nonterminals, and `ranks` has how many nonterminals each one gets to.
#[derive(Drop)]
pub struct Dialect {
    literals: Vec<LiteralRow>,
    rules: Vec<RuleRow>,
    start: u16,
    nullable: SymbolSet,
    ranks: [u8; 64],
    ghost few: { Few literals.items rules.items },
    ghost spelled: { Faultless (LiteralOk literals.items) (length literals.items) },
    ghost allowed: { Faultless (RowOk (length literals.items) rules.items start) (length rules.items + 1) },
    ghost named: { Faultless (NamesOk rules.items start) (length rules.items + 1) },
    ghost acyclic: { Acyclic (grammar_of_rows rules.items start) },
    ghost nulls: { Nulls rules.items start nullable },
    ghost ranked: { RankTable rules.items ranks },
}
