// The tables of a chart: rows of plain numbers that a caller lends, searched, filled and sorted in place.
#![tactic(auto)]

pub mod fill;
pub mod order;
pub mod row;
pub mod search;

pub use fill::fill_from;
pub use order::{Keyed, first_at, sort_between};
pub use row::{ItemRow, LinkRow};
pub use search::{add_made, find_row};
