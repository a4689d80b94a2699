// The dialect that a caller holds at first.
ghost use Rattle.std.specs.Prelude.{◌≡◌};
ghost use Rattle.dialect.specs.Loads.{Builtin};
ghost use Rattle.dialect.specs.Loose.{on, loose};

use super::Dialect;
use rows::{DialectRows, PlaceRow, RuleRow};
use std::alloc::Global;
use tokens::Refusal;

fn place(relation: u8, symbol: u16) -> PlaceRow
    ensures { result ≡ on relation symbol }
{
    PlaceRow { relation, symbol }
}

// S → =S =I, S → =I, I → =word, I → =word ~S
fn loose_rows() -> [RuleRow; 4]
    ensures { result ≡ loose }
{
    let word = place(b'=', 1);
    [
        RuleRow::new(256, 1)
            .with_place(place(b'=', 256))
            .with_place(place(b'=', 257)),
        RuleRow::new(256, 0).with_place(place(b'=', 257)),
        RuleRow::new(257, 1).with_place(word),
        RuleRow::new(257, 3)
            .with_place(word)
            .with_place(place(b'~', 256)),
    ]
}

impl Dialect {
    // The dialect LOOSE: S = 256, the start, and I = 257, with S → =S =I, S → =I, I → =word, I → =word ~S; no literal.
    pub fn builtin(heap: Global) -> Result<Dialect, Refusal>
        ensures { Builtin result }
    {
        Dialect::make(
            heap,
            &DialectRows {
                literals: &[],
                rules: &loose_rows(),
                start: 256,
            },
        )
    }
}
