// The text source: a script, cut into tokens whose kinds are those of a dialect.
#![tactic(auto)]

mod cutter;
mod lexeme;
pub mod literals;
mod position;
pub mod text;

pub use literals::kinds_stand;
pub use text::TextSource;
