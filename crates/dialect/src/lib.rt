// A dialect: a grammar with indentation relations, loaded from rows that passed every test.
#![tactic(auto)]

mod cycle;
pub mod dialect;
mod examine;
mod laws;
mod names;

pub use dialect::Dialect;
pub use laws::loading_stands;
