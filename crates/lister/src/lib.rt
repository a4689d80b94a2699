// The least reading after any list, and the list of all readings, by a cursor that walks along prefixes of readings.
#![tactic(auto)]

pub mod answer;
mod branch;
pub mod cursor;
pub mod listing;
mod writer;

pub use answer::next;
pub use cursor::Cursor;
pub use listing::{collect, listing_stands};
