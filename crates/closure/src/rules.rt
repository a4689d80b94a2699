// Rule rows that may be looked through for nonterminals.
ghost use Rattle.closure.specs.Nulls.{Formed};

use rows::RuleRow;

// Rules whose left symbols are nonterminals, with at most six places each.
#[derive(Clone, Copy)]
pub struct Rules<'a> {
    pub rows: &'a [RuleRow],
    pub ghost formed: { Formed rows.now },
}
