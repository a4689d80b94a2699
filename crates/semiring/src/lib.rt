// Kinds of value in which readings are totalled: semirings with their laws; yes-no, count, least cost and pairs.
#![tactic(auto)]

pub mod cap;
pub mod count;
pub mod least_cost;
pub mod meaning;
pub mod pair;
pub mod semiring;
pub mod yes_no;

pub use cap::CAP;
pub use count::Count;
pub use least_cost::LeastCost;
pub use pair::Pair;
pub use semiring::Semiring;
pub use yes_no::YesNo;
