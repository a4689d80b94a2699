// Sets of nonterminals, each in a machine word: bit k stands for the nonterminal 256 + k.
ghost use Rattle.std.specs.Prelude.{◌≡◌, ℕ, ◌<◌, ◌≤◌, ◌||◌, ◌==◌};
ghost use Rattle.lists.specs.Tallies.{tally, up_from};
ghost use Rattle.rows.specs.Rows.{Nonterminal};
ghost use Rattle.closure.specs.Sets.{has, in_set};

use rows::nonterminal;
use std::marker::Model;

// A set of nonterminals; contracts see it as the number that its bits are.
#[derive(Clone, Copy, Debug, Default, PartialEq, Eq, PartialOrd, Ord, Hash)]
pub struct SymbolSet {
    bits: u64,
}

impl Model for SymbolSet {
    ghost Value = { ℕ };

    ghost view = { λ s. s.bits };

    ghost inverse = { λ n. record { bits = n } };
}

impl SymbolSet {
    // The set without a member.
    pub fn new() -> SymbolSet
        ensures { result ≡ 0 }
    {
        SymbolSet { bits: 0 }
    }

    // Whether the symbol is a nonterminal of the set.
    pub fn contains(self, symbol: u16) -> bool
        ensures { result ≡ in_set self symbol }
    {
        nonterminal(symbol) && self.has(symbol - 256)
    }

    // The set with one nonterminal more.
    pub fn with(self, symbol: u16) -> SymbolSet
        requires { Nonterminal symbol }
        ensures symbols { (s : ℕ) → in_set result s ≡ (in_set self s || symbol == s) }
        ensures grown { self ≤ result }
    {
        SymbolSet {
            bits: self.bits | (1 << (symbol - 256)),
        }
    }

    // Whether the nonterminal 256 + k is in the set.
    pub(crate) fn has(self, k: u16) -> bool
        requires { k < 64 }
        ensures { result ≡ has self k }
    {
        (self.bits >> k) & 1 == 1
    }

    // What is in one set or the other.
    pub(crate) fn union(self, other: SymbolSet) -> SymbolSet
        ensures bits { (j : ℕ) → has result j ≡ (has self j || has other j) }
        ensures symbols { (s : ℕ) → in_set result s ≡ (in_set self s || in_set other s) }
    {
        SymbolSet {
            bits: self.bits | other.bits,
        }
    }

    // How many nonterminals are in the set.
    pub(crate) fn len(self) -> u32
        ensures members { result ≡ tally (has self) (up_from 0 64) }
        ensures few { result ≤ 64 }
    {
        self.bits.count_ones()
    }
}

// The set whose bits a number has.
impl From<u64> for SymbolSet {
    ghost from_gives = { λ n s. s ≡ n };

    fn from(bits: u64) -> SymbolSet {
        SymbolSet { bits }
    }
}

// The number that has the set's bits.
impl From<SymbolSet> for u64 {
    ghost from_gives = { λ s n. n ≡ s };

    fn from(set: SymbolSet) -> u64 {
        set.bits
    }
}
