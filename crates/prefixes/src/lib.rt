// Prefixes of readings: the stack of open items that a prefix leaves, and the sum over the readings that begin with it.
// The crate has definitions and lemmas; each function of `laws` names the theorems that hold of them.
#![tactic(auto)]

pub mod laws;
