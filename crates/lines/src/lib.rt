// The line format: a line read as a request, and an answer written as a line.
#![tactic(auto)]

pub mod answer;
pub mod hex;
pub mod number;
pub mod request;
pub mod row;
pub mod verb;
pub mod words;
