// Parts of a script that are tokens.
ghost use Rattle.std.specs.Prelude.{◌≡◌};
ghost use Rattle.script.specs.Kinds.{class_kind};
ghost use Rattle.script.specs.Lexemes.{class_of, held};

use super::position::Position;
use cutting::Fault;

// A part of the script itself, by its class.
#[derive(Clone, Copy, Debug, PartialEq, Eq)]
pub enum Lexeme<'a> {
    Word(&'a [u8]),
    Number(&'a [u8]),
    Text(&'a [u8]),
    Mark(&'a [u8]),
}

// A lexeme with its column and its place.
#[derive(Clone, Copy, Debug, PartialEq, Eq)]
pub struct Piece<'a> {
    pub lexeme: Lexeme<'a>,
    pub column: u32,
    pub place: u32,
}

// What the cutter finds: a piece and the position behind it, none at the end of the script, or a fault.
pub type Found<'a> = Result<Option<(Piece<'a>, Position)>, Fault>;

impl<'a> Lexeme<'a> {
    // The bytes.
    pub(crate) fn bytes(self) -> &'a [u8]
        ensures { result.now ≡ held self.entry }
    {
        match self {
            Lexeme::Word(part) | Lexeme::Number(part) | Lexeme::Text(part) | Lexeme::Mark(part) =>
                part,
        }
    }

    // The kind of a token that no literal spells: 1 word, 2 number, 3 text, 4 mark.
    pub(crate) fn kind(self) -> u16
        ensures { result ≡ class_kind (class_of self.entry) }
    {
        match self {
            Lexeme::Word(_) => 1,
            Lexeme::Number(_) => 2,
            Lexeme::Text(_) => 3,
            Lexeme::Mark(_) => 4,
        }
    }
}
