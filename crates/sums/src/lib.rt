// Sums over the lists of items and over readings, in any semiring.
// The crate has definitions and lemmas; each function of `laws` names the theorems that hold of them.
#![tactic(auto)]

pub mod laws;
