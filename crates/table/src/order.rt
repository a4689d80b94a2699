// Tables whose rows stand by a rising key: the first row of a key, and sorting.
ghost use Rattle.std.specs.Prelude.{◌≡◌, ℕ, length};
ghost use Rattle.table.specs.Order.{IsPart, Narrowed, Sorts};

use super::row::{ItemRow, LinkRow};
use std::ops::Range;

// A row with a key that its table stands by: the end of an item, the item of a link.
pub trait Keyed {
    ghost key: { Self → ℕ };

    fn key(&self) -> usize
        ensures { result ≡ key self.now };
}

impl Keyed for ItemRow {
    ghost key = { λ x. x.end };

    fn key(&self) -> usize {
        self.end as usize
    }
}

impl Keyed for LinkRow {
    ghost key = { λ x. x.item };

    fn key(&self) -> usize {
        self.item as usize
    }
}

// The first of the rows of the range whose key is at least the one wanted, by halves. The library's `partition_point`
// halves otherwise: it finds another row where the rows do not rise, and reads more keys.
pub fn first_at<R: Keyed>(rows: &[R], range: Range<usize>, wanted: usize) -> usize
    requires { IsPart range.start range.end (length rows.now) }
    ensures { Narrowed R.key rows.now range.start range.end wanted result result }
{
    let mut lo = range.start;
    let mut hi = range.end;
    while lo < hi {
        let mid = lo + (hi - lo) / 2;
        if rows[mid].key() < wanted {
            lo = mid + 1;
        } else {
            hi = mid;
        }
    }
    lo
}

// Sorts the links of the range by their items' rows.
pub fn sort_between(links: &mut [LinkRow], range: Range<usize>)
    requires { IsPart range.start range.end (length links.old) }
    ensures { Sorts links.old links.new range.start range.end }
{
    links[range].sort_unstable();
}
