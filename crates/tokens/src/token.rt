// A token: its kind (a terminal), its column, its place (the offset of its first byte) and its length in bytes. A kind is
// a plain number, since any number may be handed in, and is refused by a number of its own.
#[derive(Clone, Copy, Debug, PartialEq, Eq)]
pub struct Token {
    pub kind: u16,
    pub column: u32,
    pub place: u32,
    pub length: u32,
}
