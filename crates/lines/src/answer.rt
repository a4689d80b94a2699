// An answer written as a line.
ghost use Rattle.std.specs.Prelude.{◌≡◌, Some};
ghost use Rattle.lines.specs.Answers.{said, text};

use std::fmt;
use tokens::{Refusal, Token};

// Why a line is answered by an error.
#[derive(Clone, Copy, Debug, PartialEq, Eq)]
pub enum Reason {
    NotUnderstood,
    NoMemory,
}

impl fmt::Display for Reason {
    ghost output = { λ r. Some (said r) };

    fn fmt<W: fmt::Write>(&self, f: &mut fmt::Formatter<W>) -> fmt::Result {
        match self {
            Reason::NotUnderstood => write!(f, "invalid"),
            Reason::NoMemory => write!(f, "out of memory"),
        }
    }
}

// One line of an answer.
#[derive(Clone, Copy, Debug, PartialEq, Eq)]
pub enum Answer {
    // A load of so many rows.
    Loaded {
        literals: usize,
        rules: usize,
    },
    // A call that was refused, by the number and place of its refusal.
    Refused {
        number: u16,
        place: u32,
    },
    // A token of the script.
    Cut(Token),
    // The end of the tokens.
    End,
    // The fault that ends the tokens, with the number of its source too.
    Fault {
        number: u16,
        place: u32,
        source: u16,
    },
    // A line that cannot be carried out.
    Error {
        line: u64,
        reason: Reason,
    },
}

impl fmt::Display for Answer {
    ghost output = { λ a. Some (text a) };

    fn fmt<W: fmt::Write>(&self, f: &mut fmt::Formatter<W>) -> fmt::Result {
        match *self {
            Answer::Loaded { literals, rules } => write!(f, "loaded {literals} {rules}"),
            Answer::Refused { number, place } => write!(f, "refused {number} {place}"),
            Answer::Cut(
                Token {
                    kind,
                    column,
                    place,
                    length,
                },
            ) => write!(f, "token {kind} {column} {place} {length}"),
            Answer::End => write!(f, "end"),
            Answer::Fault {
                number,
                place,
                source,
            } => write!(f, "fault {number} {place} {source}"),
            Answer::Error { line, reason } => write!(f, "error {line} {reason}"),
        }
    }
}

impl Answer {
    // The answer of a refused call.
    pub fn refused(refusal: Refusal) -> Answer
        ensures { result ≡ Rattle.lines.specs.Answers.refused refusal }
    {
        let told = refusal.report();
        Answer::Refused {
            number: told.number,
            place: told.place,
        }
    }

    // The answer of a fault of a source.
    pub fn fault(refusal: Refusal) -> Answer
        ensures { result ≡ Rattle.lines.specs.Answers.faulted refusal }
    {
        let report = refusal.report();
        Answer::Fault {
            number: report.number,
            place: report.place,
            source: report.source,
        }
    }
}
