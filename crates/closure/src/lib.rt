// Sets of nonterminals in a machine word: the nullable ones, those that each one steps to, and those that it gets to.
#![tactic(auto)]

pub mod nullable;
pub mod rank;
pub mod reach;
pub mod rules;
pub mod set;
pub mod step;

pub use rank::ranks;
pub use rules::Rules;
pub use set::SymbolSet;
