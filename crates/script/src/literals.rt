// Literals: the kind of a token by its spelling.
ghost use Rattle.std.specs.Prelude.{◌≡◌, ◌≤◌, length};
ghost use Rattle.dialect.specs.Views.{literals_of};
ghost use Rattle.script.specs.Kinds.{spells, kind_of, Kinds};
ghost use Rattle.script.specs.Lexemes.{held, token_of};

use super::lexeme::Piece;
use dialect::Dialect;
use rows::LiteralRow;
use tokens::Token;

// Whether a literal is spelled so.
fn spelled(row: &LiteralRow, part: &[u8]) -> bool
    ensures { result ≡ spells row.now part.now }
{
    row.spelling() == Some(part)
}

// The number of the first literal that is spelled so, or else the kind of the class.
fn kind(literals: &[LiteralRow], part: &[u8], class: u16) -> u16
    requires { length literals.now ≤ 64 }
    ensures { result ≡ kind_of literals.now part.now class }
{
    for (i, row) in literals.iter().enumerate() {
        if spelled(row, part) {
            return 16 + i as u16;
        }
    }
    class
}

// The token of a dialect that a piece is.
pub(crate) fn token_of(dialect: &Dialect, piece: Piece) -> Token
    requires { length (held piece.lexeme) ≤ 65536 }
    ensures { result ≡ token_of (literals_of dialect.now) piece.entry }
{
    let part = piece.lexeme.bytes();
    Token {
        kind: kind(dialect.literals(), part, piece.lexeme.kind()),
        column: piece.column,
        place: piece.place,
        length: part.len() as u32,
    }
}

// The kind of a token is that of the first literal that is spelled like it, and else that of its class.
pub fn kinds_stand()
    ensures { Kinds }
{}
