// The rows of a dialect: plain numbers, as a caller hands them in. Any number may stand in them, also a length or a count
// beyond the array beside it, and is refused by a number of its own.
ghost use Rattle.std.specs.Prelude.{◌≡◌, ◌+◌, ◌<◌, ◌≤◌, min, cond, length, take, nat_lt, slice_set, MatchOption};
ghost use Rattle.rows.specs.Rows.{no_spelling, spelled, no_places, placed};

// A literal: the first `length` of the bytes are its spelling. Literal rows are numbered from 16.
#[derive(Clone, Copy, Debug, PartialEq, Eq)]
pub struct LiteralRow {
    pub length: u8,
    pub bytes: [u8; 32],
}

// A place of a rule: the character of its relation as a number, and a symbol.
#[derive(Clone, Copy, Debug, PartialEq, Eq)]
pub struct PlaceRow {
    pub relation: u8,
    pub symbol: u16,
}

// A rule: its left symbol, its cost, and places, of which the first `count` count.
#[derive(Clone, Copy, Debug, PartialEq, Eq)]
pub struct RuleRow {
    pub left: u16,
    pub cost: u32,
    pub count: u8,
    pub places: [PlaceRow; 6],
}

// What a dialect is made of: its literals, its rules, and its start symbol.
#[derive(Clone, Copy, Debug)]
pub struct DialectRows<'a> {
    pub literals: &'a [LiteralRow],
    pub rules: &'a [RuleRow],
    pub start: u16,
}

// Stores an item behind those that are counted, if there is room, and answers how many are counted then, at most 255.
fn store<T: Copy, const N: usize>(items: &mut [T; N], count: u8, item: T) -> u8
    ensures items { items.new ≡ cond (nat_lt count N) (slice_set items.old count item) items.old }
    ensures count { result ≡ min (count + 1) 255 }
{
    let at = count as usize;
    if at < N {
        items[at] = item;
    }
    count.saturating_add(1)
}

impl LiteralRow {
    // A literal without bytes.
    pub fn new() -> LiteralRow
        ensures { result ≡ no_spelling }
    {
        LiteralRow {
            length: 0,
            bytes: [0; 32],
        }
    }

    // The literal with one byte more: 32 are stored, and up to 255 are counted.
    pub fn with_byte(mut self, byte: u8) -> LiteralRow
        ensures { result ≡ spelled self byte }
    {
        self.length = store(&mut self.bytes, self.length, byte);
        self
    }

    // The counted bytes, or none where more are counted than there are.
    pub fn spelling(&self) -> Option<&[u8]>
        ensures { MatchOption result (32 < self.now.length) (λ s. (self.now.length ≤ 32) × (s.now ≡ take self.now.length self.now.bytes)) }
    {
        self.bytes.get(..self.length as usize)
    }
}

impl RuleRow {
    // A rule without places.
    pub fn new(left: u16, cost: u32) -> RuleRow
        ensures { result ≡ no_places left cost }
    {
        let none = PlaceRow {
            relation: 0,
            symbol: 0,
        };
        RuleRow {
            left,
            cost,
            count: 0,
            places: [none; 6],
        }
    }

    // The rule with one place more: six are stored, and up to 255 are counted.
    pub fn with_place(mut self, place: PlaceRow) -> RuleRow
        ensures { result ≡ placed self place }
    {
        self.count = store(&mut self.places, self.count, place);
        self
    }

    // The places that count, of which there are at most six.
    pub fn counted(&self) -> &[PlaceRow]
        ensures places { result.now ≡ take self.now.count self.now.places }
        ensures few { length result.now ≤ 6 }
    {
        &self.places[..(self.count as usize).min(6)]
    }
}
