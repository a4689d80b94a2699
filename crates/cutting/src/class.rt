// The classes of bytes.
ghost use Rattle.std.specs.Prelude.{◌≡◌};
ghost use Rattle.cutting.specs.Classes.{classed};

// What a byte is to the cutter.
#[derive(Clone, Copy, Debug, PartialEq, Eq)]
pub enum Class {
    // Space, tab or carriage return.
    Blank,
    // The line feed.
    Line,
    // #, which starts a comment.
    Hash,
    // A to Z, a to z, or _.
    Letter,
    // 0 to 9.
    Digit,
    // The quote, which starts a text.
    Quote,
    // Any other byte from 33 to 126: a mark.
    Sign,
    // A byte that starts no token.
    Other,
}

// The class of a byte.
impl From<u8> for Class {
    ghost from_gives = { λ b class. class ≡ classed b };

    fn from(b: u8) -> Class {
        match b {
            b' ' | b'\t' | b'\r' => Class::Blank,
            b'\n' => Class::Line,
            b'#' => Class::Hash,
            b'A'..=b'Z' | b'a'..=b'z' | b'_' => Class::Letter,
            b'0'..=b'9' => Class::Digit,
            b'"' => Class::Quote,
            33..=126 => Class::Sign,
            _ => Class::Other,
        }
    }
}
