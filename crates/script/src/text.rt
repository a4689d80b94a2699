// The text source: a script and the dialect that its tokens are for.
ghost use Rattle.std.specs.Prelude.{◌≡◌, ◌≤◌, length};
ghost use Rattle.dialect.specs.Views.{literals_of};
ghost use Rattle.cutting.specs.Columns.{column_at};
ghost use Rattle.cutting.specs.Cuts.{Span};
ghost use Rattle.cutting.specs.Meaning.{spans, ending_at};
ghost use Rattle.cutting.specs.Laws.{Lawful};
ghost use Rattle.script.specs.Kinds.{class_kind, Kinded};
ghost use Rattle.script.specs.Tokens.{refusal_of, part_of, text_tokens, text_ending, Meant, meant_from};

use super::cutter::next_piece;
use super::literals::token_of;
use super::position::Position;
use cutting::Fault;
use dialect::Dialect;
use std::marker::Model;
use tokens::{Refusal, Source, Token};

// A script with the position from which on its tokens are still to come.
#[derive(Drop)]
pub struct TextSource<'a, 'd> {
    script: &'a [u8],
    dialect: &'d Dialect,
    position: Position,
}

// It is seen as what it means: the tokens still to come, and what comes behind them.
impl<'a, 'd> Model for TextSource<'a, 'd> {
    ghost Value = { Meant };

    ghost view = { λ s. meant_from (literals_of s.dialect.now) s.script.now s.position.place };

    ghost invariant = { λ s. (s.position.place ≤ length s.script.now) × (s.position.column ≡ column_at s.script.now s.position.place) };
}

// A fault of a script as the refusal of the source with this number, which a `From` could not be given.
fn refusal(source: u16, fault: Fault) -> Refusal
    ensures { result ≡ refusal_of source fault }
{
    match fault {
        Fault::StrayByte(place) => Refusal::StrayByte { place, source },
        Fault::UnclosedText(place) => Refusal::UnclosedText { place, source },
        Fault::FarColumn(place) => Refusal::FarColumn { place, source },
        Fault::LongScript => Refusal::LongScript { source },
    }
}

impl<'a, 'd> TextSource<'a, 'd> {
    // A source of all the tokens of a script. They obey the laws of cutting, and each has the kind of the first literal
    // that is spelled like it, or else that of its class.
    pub fn new(script: &'a [u8], dialect: &'d Dialect) -> TextSource<'a, 'd>
        ensures tokens { result.tokens ≡ text_tokens (literals_of dialect.now) script.now 0 }
        ensures ending { result.ending ≡ text_ending script.now 0 }
        ensures lawful { Lawful script.now 0 (spans script.now 0) (ending_at script.now 0) }
        ensures kinds { (s : Span) → Kinded (literals_of dialect.now) (part_of script.now s) (class_kind s.class) }
    {
        TextSource {
            script,
            dialect,
            position: Position {
                place: 0,
                column: 0,
            },
        }
    }
}

impl<'a, 'd> Source for TextSource<'a, 'd> {
    const NUMBER: u16 = 1;

    ghost number = { 1 };

    ghost tokens = { λ s. s.tokens };

    ghost ending = { λ s. s.ending };

    fn own_number() -> u16
        ensures { result ≡ 1 }
    {
        Self::NUMBER
    }

    fn ask(&mut self) -> Result<Option<Token>, Refusal> {
        match next_piece(self.script, self.position) {
            Ok(Some((piece, position))) => {
                let token = token_of(self.dialect, piece);
                self.position = position;
                Ok(Some(token))
            }
            Ok(None) => Ok(None),
            Err(fault) => Err(refusal(Self::NUMBER, fault)),
        }
    }
}
