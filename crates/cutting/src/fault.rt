// The faults of a script.

// Why a script has no more tokens before its end.
#[derive(Clone, Copy, Debug, PartialEq, Eq)]
pub enum Fault {
    // The byte at the place starts no token.
    StrayByte(u32),
    // The text that begins at the place is not closed on its line.
    UnclosedText(u32),
    // The token at the place stands at a column above 255.
    FarColumn(u32),
    // The script has more than 65,536 bytes.
    LongScript,
}
