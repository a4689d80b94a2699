// Grammars with indentation relations, as mathematics: rules, nullable symbols, steps between symbols.
// The crate has no code: crate `rows` has the rows that a grammar is loaded from, and the tests of them.
#![tactic(auto)]
