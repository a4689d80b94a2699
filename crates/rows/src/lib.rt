// The rows that a dialect is loaded from, and the tests that each row must pass.
#![tactic(auto)]

pub mod literal;
pub mod row;
pub mod rule;

pub use literal::literal_fault;
pub use row::{DialectRows, LiteralRow, PlaceRow, RuleRow};
pub use rule::{nonterminal, rule_fault};
