// The rows of a chart: plain numbers in tables that a caller lends, so a summary stands in them as its code, and a row as
// its number.

// An item: a rule, its dot, which counts the places passed, the tokens from `start` up to `end` that they stand over,
// and the code of their summary.
#[derive(Clone, Copy, Debug, PartialEq, Eq)]
pub struct ItemRow {
    pub rule: u16,
    pub dot: u16,
    pub start: u16,
    pub end: u16,
    pub summary: u16,
}

// A link: the number of an item's row, that of the item one dot earlier, and the child, which is 0 for a token and else
// one more than the number of a finished item's row.
#[derive(Clone, Copy, Debug, PartialEq, Eq, PartialOrd, Ord)]
pub struct LinkRow {
    pub item: u16,
    pub earlier: u16,
    pub child: u16,
}
