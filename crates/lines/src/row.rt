// Rows in a line: a literal's spelling as its bytes, and the places of a rule.
ghost use Rattle.std.specs.Prelude.{◌≡◌, ℕ};
ghost use Rattle.lines.specs.Numbers.{numeral};
ghost use Rattle.lines.specs.Rows.{literal_row, of_symbol, place_at};

use super::hex::byte;
use super::number::symbol;
use rows::{LiteralRow, PlaceRow};

// The row of a literal with this spelling.
pub(crate) fn literal_row(spelling: &[u8]) -> LiteralRow
    ensures { result ≡ literal_row spelling.now }
{
    spelling
        .iter()
        .fold(LiteralRow::new(), |row, b| row.with_byte(*b))
}

// The place with a relation and the symbol that a word is.
fn with_symbol(relation: u8, word: &[u8]) -> Option<PlaceRow>
    ensures { result ≡ of_symbol relation (numeral 65535 word.now) }
{
    let symbol = symbol(word)?;
    Some(PlaceRow { relation, symbol })
}

// The place that a word is: a byte for the relation, or `\x` and two hexadecimal digits for it, and the symbol.
pub(crate) fn place(word: &[u8]) -> Option<PlaceRow>
    ensures { result ≡ place_at word.now }
{
    match word {
        [b'\\', b'x', high, low, digits @ ..] => with_symbol(byte(*high, *low)?, digits),
        [relation, digits @ ..] => with_symbol(*relation, digits),
        [] => None,
    }
}
