// What a dialect says of itself.
ghost use Rattle.std.specs.Prelude.{◌≡◌, ℕ, ◌<◌, ◌≤◌, length, Decides};
ghost use Rattle.grammar.specs.Steps.{Nullable, Steps, Acyclic};
ghost use Rattle.closure.specs.Ranks.{rank};
ghost use Rattle.dialect.specs.Views.{literals_of, rules_of, grammar_of, WellFormed};

use super::Dialect;
use rows::{LiteralRow, RuleRow, nonterminal};

impl Dialect {
    // The literal rows, of which there are at most 64.
    pub fn literals(&self) -> &[LiteralRow]
        ensures rows { result.now ≡ literals_of self.now }
        ensures few { length result.now ≤ 64 }
    {
        &self.literals
    }

    // The rule rows; the dialect is always well formed, and no symbol gets back to itself.
    pub fn rules(&self) -> &[RuleRow]
        ensures rows { result.now ≡ rules_of self.now }
        ensures formed { WellFormed self.now }
        ensures acyclic { Acyclic (grammar_of self.now) }
    {
        &self.rules
    }

    // The start symbol.
    pub fn start(&self) -> u16
        ensures { result ≡ self.now.start }
    {
        self.start
    }

    // Whether the symbol has a tree over no token.
    pub fn is_nullable(&self, symbol: u16) -> bool
        ensures { Decides result (Nullable (grammar_of self.now) symbol) }
    {
        self.nullable.contains(symbol)
    }

    // How many nonterminals a nonterminal gets to, and one more; 0 for a terminal. It falls along every step.
    pub fn rank(&self, symbol: u16) -> u32
        ensures rank { result ≡ rank (grammar_of self.now) symbol }
        ensures falls { (a b : ℕ) → Steps (grammar_of self.now) a b → rank (grammar_of self.now) b < rank (grammar_of self.now) a }
    {
        if nonterminal(symbol) {
            1 + u32::from(self.ranks[(symbol - 256) as usize])
        } else {
            0
        }
    }
}
