// The test of rule rows and of the start: allowed relations, symbols, costs and numbers of places.
ghost use Rattle.std.specs.Prelude.{◌+◌, ◌<◌, length, Decides};
ghost use Rattle.rows.specs.Rows.{Nonterminal, Known, PlaceOk, RuleOk, RowOk, Finds};

use crate::row::{PlaceRow, RuleRow};
use indent::Relation;

// Whether the symbol is a nonterminal: 256 to 319.
pub fn nonterminal(symbol: u16) -> bool
    ensures { Decides result (Nonterminal symbol) }
{
    matches!(symbol, 256..=319)
}

// Whether a dialect with so many literals has the symbol.
fn known(symbol: u16, literals: usize) -> bool
    ensures { Decides result (Known literals symbol) }
{
    match symbol {
        1..=4 => true,
        16..=79 => ((symbol - 16) as usize) < literals,
        256..=319 => true,
        _ => false,
    }
}

// Whether a place of such a dialect may be this one.
fn place_ok(place: &PlaceRow, literals: usize) -> bool
    ensures { Decides result (PlaceOk literals place.now) }
{
    Relation::try_from(place.relation).is_ok() && known(place.symbol, literals)
}

// Whether a rule of such a dialect may be this one.
fn rule_ok(row: &RuleRow, literals: usize) -> bool
    ensures { Decides result (RuleOk literals row.now) }
{
    if !nonterminal(row.left) || row.cost > 10_000 || row.count > 6 {
        return false;
    }
    row.counted().iter().all(|place| place_ok(place, literals))
}

// The first rule row with a relation, symbol, cost or number of places that is not allowed; the start is the row after
// the last.
pub fn rule_fault(literals: usize, rules: &[RuleRow], start: u16) -> Option<usize>
    ensures { Finds (RowOk literals rules.now start) (length rules.now + 1) result }
{
    let fault = rules.iter().position(|row| !rule_ok(row, literals));
    fault.or((!nonterminal(start)).then_some(rules.len()))
}
