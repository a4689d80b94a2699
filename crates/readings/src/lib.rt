// Readings: derivation trees for which indentations exist, their summaries, and the order of their lists.
// The crate has definitions and lemmas; each function of `laws` names the theorems that hold of them.
#![tactic(auto)]

pub mod laws;
