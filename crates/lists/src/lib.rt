// Lists as the definitions and proofs of this repository speak of them: entries, members, nothing twice.
// The crate has no code.
#![tactic(auto)]
