// The tests of all rows, in their order, and the tables of rows that pass them.
ghost use Rattle.dialect.specs.Examined.{Examined};

use crate::cycle::cycle_fault;
use crate::names::name_fault;
use closure::{Rules, SymbolSet, ranks};
use rows::{DialectRows, literal_fault, rule_fault};
use tokens::Refusal;

// How many literal rows and rule rows a dialect may have.
const MOST_LITERALS: usize = 64;

const MOST_RULES: usize = 256;

// The nullable nonterminals, and how many nonterminals each one gets to.
#[derive(Clone, Copy)]
pub(crate) struct Tables {
    pub(crate) nullable: SymbolSet,
    pub(crate) ranks: [u8; 64],
}

// The tables of rows that may be loaded, or their first fault in the order of the tests.
pub(crate) fn examine(rows: &DialectRows) -> Result<Tables, Refusal>
    ensures { Examined rows.now.literals.now rows.now.rules.now rows.now.start result }
{
    if rows.literals.len() > MOST_LITERALS || rows.rules.len() > MOST_RULES {
        return Err(Refusal::TooManyRows);
    }
    if let Some(row) = literal_fault(rows.literals) {
        return Err(Refusal::BadLiteral { row: row as u16 });
    }
    if let Some(row) = rule_fault(rows.literals.len(), rows.rules, rows.start) {
        return Err(Refusal::BadRule { row: row as u16 });
    }
    let rules = Rules { rows: rows.rules };
    if let Some(row) = name_fault(&rules, rows.start) {
        return Err(Refusal::NoRule { row: row as u16 });
    }
    let nullable = rules.nullables();
    let reach = rules.reach_table(nullable);
    if let Some(row) = cycle_fault(&rules, &reach) {
        return Err(Refusal::Cyclic { row: row as u16 });
    }
    let ranks = ranks(&reach);
    Ok(Tables { nullable, ranks })
}
