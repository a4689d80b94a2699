// The cutter: a machine over the bytes of a script.
ghost use Rattle.std.specs.Prelude.{◌≡◌, ◌+◌, ◌-◌, ◌<◌, ◌≤◌, length, take, drop};
ghost use Rattle.cutting.specs.Columns.{column_at};
ghost use Rattle.cutting.specs.Starts.{start_of, text_of, closed};
ghost use Rattle.script.specs.Lexemes.{NextPost, pieced};

use super::lexeme::{Found, Lexeme, Piece};
use super::position::Position;
use cutting::{Class, Fault, closing, columns};

// The most bytes that a script may have.
const LONGEST: usize = 65_536;

// Where the machine stands: between tokens, or inside one, or in a comment. The rules ask for a machine over the bytes.
#[derive(Clone, Copy)]
enum State {
    Blank,
    Word,
    Number,
    Text,
    Comment,
}

// The part of the script from one position to another.
fn part<'a>(script: &'a [u8], start: Position, end: Position) -> &'a [u8]
    requires rise { start.place ≤ end.place }
    requires lies { end.place ≤ length script.now }
    ensures { result.now ≡ take (end.place - start.place) (drop start.place script.now) }
{
    let from = start.place;
    let to = end.place;
    &script[from..to]
}

// The lexeme from one position to another, unless its column is above 255.
fn piece<'a>(lexeme: Lexeme<'a>, start: Position, end: Position) -> Found<'a>
    requires { start.place ≤ 65536 }
    ensures { result ≡ pieced lexeme.entry start end }
{
    if start.column > 255 {
        return Err(Fault::FarColumn(start.place as u32));
    }
    let piece = Piece {
        lexeme,
        column: start.column as u32,
        place: start.place as u32,
    };
    Ok(Some((piece, end)))
}

// The text that begins with the quote at `start`: the part behind it is searched for the closing one.
fn text_piece<'a>(script: &'a [u8], start: Position, behind: Position) -> Found<'a>
    requires short { length script.now ≤ 65536 }
    requires lies { start.place < length script.now }
    requires starts { start.column ≡ column_at script.now start.place }
    requires next { behind.place ≡ start.place + 1 }
    requires column { behind.column ≡ column_at script.now behind.place }
    requires quote { start_of (drop start.place script.now) ≡ text_of (closed (drop behind.place script.now)) }
    ensures { NextPost script.now start.place result }
{
    let inside = behind.place;
    match closing(&script[inside..]) {
        Some(n) => {
            let place = inside + n + 1;
            let column = columns(behind.column, &script[inside..place]);
            let end = Position { place, column };
            piece(Lexeme::Text(part(script, start, end)), start, end)
        }
        None if start.column > 255 => Err(Fault::FarColumn(start.place as u32)),
        None => Err(Fault::UnclosedText(start.place as u32)),
    }
}

// The first piece from a position on.
#[tactic(auto, using(crate::proofs::Machine::within_rest))]
pub(crate) fn next_piece<'a>(script: &'a [u8], from: Position) -> Found<'a>
    requires lies { from.place ≤ length script.now }
    requires column { from.column ≡ column_at script.now from.place }
    ensures { NextPost script.now from.place result }
{
    if script.len() > LONGEST {
        return Err(Fault::LongScript);
    }
    let mut state = State::Blank;
    let mut at = from;
    let mut start = from;
    for b in &script[from.place..] {
        match (state, Class::from(*b)) {
            (State::Blank, Class::Blank | Class::Line) => {}
            (State::Blank, Class::Hash) => state = State::Comment,
            (State::Blank, Class::Letter) => {
                state = State::Word;
                start = at;
            }
            (State::Blank, Class::Digit) => {
                state = State::Number;
                start = at;
            }
            (State::Blank, Class::Quote) => {
                state = State::Text;
                start = at;
            }
            (State::Blank, Class::Sign) => {
                let end = at.behind(*b);
                return piece(Lexeme::Mark(part(script, at, end)), at, end);
            }
            (State::Blank, Class::Other) => return Err(Fault::StrayByte(at.place as u32)),
            (State::Word, Class::Letter | Class::Digit) => {}
            (State::Word, _) => return piece(Lexeme::Word(part(script, start, at)), start, at),
            (State::Number, Class::Digit) => {}
            (State::Number, _) => return piece(Lexeme::Number(part(script, start, at)), start, at),
            (State::Text, _) => return text_piece(script, start, at),
            (State::Comment, Class::Line) => state = State::Blank,
            (State::Comment, _) => {}
        }
        at = at.behind(*b);
    }
    match state {
        State::Blank | State::Comment => Ok(None),
        State::Word => piece(Lexeme::Word(part(script, start, at)), start, at),
        State::Number => piece(Lexeme::Number(part(script, start, at)), start, at),
        State::Text => text_piece(script, start, at),
    }
}
