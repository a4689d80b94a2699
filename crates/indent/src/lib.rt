// Indentation: the relations between the numbers of a child and its parent, and the summaries of the numbers
// that the root of a subtree may carry.
#![tactic(auto)]

pub mod relation;
pub mod summary;

pub use relation::Relation;
pub use summary::Summary;
