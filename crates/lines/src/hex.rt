// Bytes in a line: an even number of hexadecimal digits of either case.
ghost use Rattle.std.specs.Prelude.{◌≡◌};
ghost use Rattle.lines.specs.Hex.{nibble, pair, bytes, HexAnswers};

use std::alloc::{AllocError, Global};

fn digit(b: u8) -> Option<u8>
    ensures { result ≡ nibble b }
{
    char::from(b).to_digit(16).map(|digit| digit as u8)
}

// The byte that two hexadecimal digits are.
pub(crate) fn byte(high: u8, low: u8) -> Option<u8>
    ensures { result ≡ pair high low }
{
    Some(digit(high)? * 16 + digit(low)?)
}

// The bytes that a word is the hexadecimal digits of; none where it is not, as where a line is not understood.
pub(crate) fn unhex(heap: Global, word: &[u8]) -> Result<Option<Vec<u8>>, AllocError>
    ensures { HexAnswers (bytes word.now) result }
{
    let mut bytes = Vec::new(heap);
    let mut digits = word;
    while let [high, low, rest @ ..] = digits {
        let Some(byte) = byte(*high, *low) else {
            return Ok(None);
        };
        bytes.push(byte)?;
        digits = rest;
    }
    Ok(digits.is_empty().then_some(bytes))
}
