// The worked cases of the rules, lettered A to H, as rows of one table.
// The crate has definitions and lemmas; its function names the theorems that hold of them.
#![tactic(auto)]

ghost use Rattle.cases.specs.Claims.{Cases, Crowded};

// Each worked case has the readings, sums, items and links that the table says; and a word at column 0 under STRICT
// has more items than 11 and more links than 3.
pub fn cases_stand()
    ensures cases { Cases }
    ensures crowded { Crowded }
{}
