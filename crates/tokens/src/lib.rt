// Tokens, what is refused and how it is told, and the sources that tokens come from.
#![tactic(auto)]

pub mod drain;
pub mod list;
pub mod refusal;
pub mod source;
pub mod token;

pub use drain::{Drained, drain_source};
pub use list::ListSource;
pub use refusal::{Refusal, Report};
pub use source::Source;
pub use token::Token;
