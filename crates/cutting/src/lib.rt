// The rules by which a script is cut: classes of bytes, columns, closing quotes, faults, and the laws of the tokens.
#![tactic(auto)]

pub mod class;
pub mod column;
pub mod fault;
pub mod laws;
pub mod quote;

pub use class::Class;
pub use column::{column_after, columns};
pub use fault::Fault;
pub use laws::laws_stand;
pub use quote::closing;
