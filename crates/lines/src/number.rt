// Numbers in a line: decimal digits without a sign.
ghost use Rattle.std.specs.Prelude.{◌≡◌, ℕ};
ghost use Rattle.lines.specs.Numbers.{longer, numeral};

// A number with one digit more, where the byte is a digit and the number fits.
fn with_digit(n: u32, b: u8) -> Option<u32>
    ensures { result ≡ longer 4294967295 n b }
{
    if !b.is_ascii_digit() {
        return None;
    }
    n.checked_mul(10)?.checked_add(u32::from(b - b'0'))
}

// The number that a word is, where it is one and has at most 32 bits.
#[tactic(auto, using(crate::proofs::Numbering::read_none))]
pub(crate) fn number(word: &[u8]) -> Option<u32>
    ensures { result ≡ numeral 4294967295 word.now }
{
    if word.is_empty() {
        return None;
    }
    let mut n = 0;
    for b in word {
        n = with_digit(n, *b)?;
    }
    Some(n)
}

// The symbol that a word is the number of, where it is.
pub(crate) fn symbol(word: &[u8]) -> Option<u16>
    ensures { result ≡ numeral 65535 word.now }
{
    u16::try_from(number(word)?).ok()
}
