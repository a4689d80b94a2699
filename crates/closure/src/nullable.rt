// The nullable nonterminals: rounds over the rules, until a round adds none.
ghost use Rattle.std.specs.Prelude.{◌≡◌, ◌≤◌, length};
ghost use Rattle.grammar.specs.Nulling.{every};
ghost use Rattle.rows.specs.Meaning.{rule_of};
ghost use Rattle.closure.specs.Sets.{in_set};
ghost use Rattle.closure.specs.Nulls.{Sound, Quiet, NullableSet};

use crate::rules::Rules;
use crate::set::SymbolSet;
use rows::RuleRow;

// Whether the set has the symbol of every place of the rule.
fn all_in(row: &RuleRow, set: SymbolSet) -> bool
    ensures { result ≡ every (in_set set) (rule_of row.now).places }
{
    row.counted().iter().all(|place| set.contains(place.symbol))
}

impl Rules<'_> {
    // The set of the nullable nonterminals.
    pub fn nullables(&self) -> SymbolSet
        ensures { NullableSet self.now.rows.now result }
    {
        let mut set = SymbolSet::new();
        loop {
            let next = self.round(set);
            if next == set {
                return set;
            }
            set = next;
        }
    }

    // The set with the left symbols of the rules whose places are all in it.
    fn round(&self, set: SymbolSet) -> SymbolSet
        ensures grown { set ≤ result }
        ensures sound { Sound self.now.rows.now set → Sound self.now.rows.now result }
        ensures quiet { result ≡ set → Quiet self.now.rows.now set (length self.now.rows.now) }
    {
        let mut out = set;
        for row in self.rows {
            if all_in(row, out) {
                out = out.with(row.left);
            }
        }
        out
    }
}
