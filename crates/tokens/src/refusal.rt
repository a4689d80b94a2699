// Everything that is refused, and how it is told: a number, a place, a source, a token.
ghost use Rattle.std.specs.Prelude.{◌≡◌};
ghost use Rattle.tokens.specs.declared.refusal.Refusal.TheVariants.{NoMemory};
ghost use Rattle.tokens.specs.Refusals.{report};

use super::token::Token;
use std::alloc::AllocError;

// What is refused. docs/REFUSALS.md says of each case who causes it and in which order it is tested.
#[derive(Clone, Copy, Debug, PartialEq, Eq)]
pub enum Refusal {
    // A dialect has more than 64 literal rows or 256 rule rows.
    TooManyRows,
    // A literal row has a wrong length, or is spelled as an earlier one.
    BadLiteral { row: u16 },
    // A rule row, or the start, has a relation, symbol, cost or number of places that is not allowed.
    BadRule { row: u16 },
    // A rule row, or the start, names a nonterminal that has no rule.
    NoRule { row: u16 },
    // The left symbol of a rule row gets back to itself.
    Cyclic { row: u16 },
    // A byte of a script starts no token.
    StrayByte { place: u32, source: u16 },
    // A text is not closed on its line.
    UnclosedText { place: u32, source: u16 },
    // A token's column is above 255.
    FarColumn { place: u32, source: u16 },
    // A script has more than 65,536 bytes.
    LongScript { source: u16 },
    // A table has a length that is not allowed.
    BadTable,
    // The items or links of a chart with no token outnumber the rows.
    NoRoomToOpen,
    // The items or links outnumber the rows with this token.
    NoRoom { token: Token },
    // The token's kind or column is not allowed.
    BadToken { token: Token },
    // 512 tokens stand before this token.
    TooManyTokens { token: Token },
    // A cut beyond the tokens that stand.
    CutBeyond,
    // A list, or the reading to be answered, is longer than the buffer.
    LongList,
    // There is no memory for a dialect's rows, or for the list of all readings.
    NoMemory,
}

// A refusal as it is told. The source is 0 where the refusal is not a fault of a source; the token is there where
// a token was refused.
#[derive(Clone, Copy, Debug, PartialEq, Eq)]
pub struct Report {
    pub number: u16,
    pub place: u32,
    pub source: u16,
    pub token: Option<Token>,
}

fn plain(number: u16, place: u32) -> Report
    ensures { result ≡ Rattle.tokens.specs.Refusals.plain number place }
{
    Report {
        number,
        place,
        source: 0,
        token: None,
    }
}

fn fault(number: u16, place: u32, source: u16) -> Report
    ensures { result ≡ Rattle.tokens.specs.Refusals.fault number place source }
{
    Report {
        source,
        ..plain(number, place)
    }
}

fn unfed(number: u16, token: Token) -> Report
    ensures { result ≡ Rattle.tokens.specs.Refusals.unfed number token }
{
    Report {
        token: Some(token),
        ..plain(number, token.place)
    }
}

impl From<AllocError> for Refusal {
    ghost from_gives = { λ _ r. r ≡ NoMemory };

    // The refusal where memory runs out.
    fn from(_error: AllocError) -> Refusal {
        Self::NoMemory
    }
}

impl Refusal {
    // The number, place, source and token of a refusal.
    pub fn report(self) -> Report
        ensures { result ≡ report self }
    {
        match self {
            Refusal::TooManyRows => plain(11, 0),
            Refusal::BadLiteral { row } => plain(12, 16 + u32::from(row)),
            Refusal::BadRule { row } => plain(13, u32::from(row)),
            Refusal::NoRule { row } => plain(14, u32::from(row)),
            Refusal::Cyclic { row } => plain(15, u32::from(row)),
            Refusal::StrayByte { place, source } => fault(21, place, source),
            Refusal::UnclosedText { place, source } => fault(22, place, source),
            Refusal::FarColumn { place, source } => fault(23, place, source),
            Refusal::LongScript { source } => fault(24, 65_536, source),
            Refusal::BadTable => plain(31, 0),
            Refusal::NoRoomToOpen => plain(32, 0),
            Refusal::NoRoom { token } => unfed(32, token),
            Refusal::BadToken { token } => unfed(33, token),
            Refusal::TooManyTokens { token } => unfed(34, token),
            Refusal::CutBeyond => plain(35, 0),
            Refusal::LongList => plain(36, 0),
            Refusal::NoMemory => plain(99, 0),
        }
    }
}
