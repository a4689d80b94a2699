// Earley's charts: items, links and the lists that they stand for.
// The crate has definitions and lemmas; each function of `laws` names the theorems that hold of them.
#![tactic(auto)]

pub mod laws;
