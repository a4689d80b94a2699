// Item rows found among others, and added where they are not there yet.
ghost use Rattle.std.specs.Prelude.{length};
ghost use Rattle.table.specs.Growth.{Finds, Is, AddsR};
ghost use Rattle.table.specs.Order.{IsPart};

use super::row::ItemRow;
use std::ops::Range;

// The number of a row of the range that is equal to the one given.
pub fn find_row(items: &[ItemRow], range: Range<usize>, row: ItemRow) -> Option<usize>
    requires { IsPart range.start range.end (length items.now) }
    ensures { Finds items.now range.start range.end row result }
{
    let start = range.start;
    let found = items[range].iter().position(|other| *other == row)?;
    Some(start + found)
}

// Adds the row that was made, if one was, behind the first n, unless an equal one stands from base on. Answers how many
// rows stand then; none where there is no room.
pub fn add_made(
    items: &mut [ItemRow],
    base: usize,
    n: usize,
    made: Option<ItemRow>,
) -> Option<usize>
    requires { IsPart base n (length items.old) }
    ensures { AddsR base (Is made) items.old items.new n result }
{
    let Some(row) = made else {
        return Some(n);
    };
    if find_row(items, base..n, row).is_some() {
        return Some(n);
    }
    if n >= items.len() {
        return None;
    }
    items[n] = row;
    Some(n + 1)
}
