// A session of the line format: what stands between two lines, and what each line does to it and answers.
#![tactic(auto)]

pub mod collect;
pub mod respond;
pub mod state;

pub use respond::respond_to;
pub use state::Session;
