// A line read as a request.
ghost use Rattle.std.specs.Prelude.{◌≡◌, Some, option_map};
ghost use Rattle.lines.specs.Words.{words};
ghost use Rattle.lines.specs.Hex.{HexAnswers};
ghost use Rattle.lines.specs.Requests.{hex_words, start_words, plain_words, rule_row, with_places, as_start, by_verb, meaning, read, Answers};

use super::hex::unhex;
use super::number::{number, symbol};
use super::row::{literal_row, place};
use super::verb::{Verb, verb_of};
use super::words::Words;
use rows::{LiteralRow, RuleRow};
use std::alloc::{AllocError, Global};

// What a line asks for; a blank line and a comment ask for nothing.
#[derive(Debug, PartialEq, Eq, Drop)]
pub enum Request {
    Blank,
    Literal(LiteralRow),
    Rule(RuleRow),
    Start(u16),
    Load,
    Script(Vec<u8>),
    Tokens,
}

// The bytes that the only word left is the hexadecimal digits of; no word stands for no bytes.
fn hex_words(heap: Global, mut words: Words<'_>) -> Result<Option<Vec<u8>>, AllocError>
    ensures { HexAnswers (hex_words words.entry) result }
{
    let Some(word) = words.next() else {
        return Ok(Some(Vec::new(heap)));
    };
    if words.next().is_some() {
        return Ok(None);
    }
    unhex(heap, word)
}

// The symbol that the only word left is.
fn start_words(mut words: Words<'_>) -> Option<u16>
    ensures { as_start result ≡ start_words words.entry }
{
    let symbol = symbol(words.next()?)?;
    words.next().is_none().then_some(symbol)
}

// The rule with the places that the words left are.
#[tactic(auto, using(crate::proofs::Ruling::unplaced))]
fn with_places(bare: RuleRow, words: Words<'_>) -> Option<RuleRow>
    ensures { result ≡ with_places (Some bare) words.entry }
{
    let mut row = bare;
    for word in words {
        row = row.with_place(place(word)?);
    }
    Some(row)
}

// The rule that the words left are.
#[tactic(auto, using(crate::proofs::Ruling::unplaced))]
fn rule_words(mut words: Words<'_>) -> Option<RuleRow>
    ensures { result ≡ rule_row words.entry }
{
    let left = symbol(words.next()?)?;
    let cost = number(words.next()?)?;
    with_places(RuleRow::new(left, cost), words)
}

// A request without arguments, where no word is left.
fn plain(request: Request, mut words: Words<'_>) -> Option<Request>
    ensures { plain_words (meaning request) words.entry ≡ option_map meaning result }
{
    words.next().is_none().then_some(request)
}

// The line without a carriage return at its end.
fn unended(line: &[u8]) -> &[u8]
    ensures { result.now ≡ Rattle.lines.specs.Requests.unended line.now }
{
    line.strip_suffix(b"\r").unwrap_or(line)
}

// The request of a command with the words left.
fn by_verb(heap: Global, verb: Verb, words: Words<'_>) -> Result<Option<Request>, AllocError>
    ensures { Answers (by_verb (Some verb) words.entry) result }
{
    match verb {
        Verb::Literal => {
            let spelling = hex_words(heap, words)?;
            Ok(spelling.map(|bytes| Request::Literal(literal_row(&bytes))))
        }
        Verb::Rule => Ok(rule_words(words).map(Request::Rule)),
        Verb::Start => Ok(start_words(words).map(Request::Start)),
        Verb::Load => Ok(plain(Request::Load, words)),
        Verb::Script => Ok(hex_words(heap, words)?.map(Request::Script)),
        Verb::Tokens => Ok(plain(Request::Tokens, words)),
    }
}

// What a line, without its line feed, asks for, where it is understood.
pub fn read_request(heap: Global, line: &[u8]) -> Result<Option<Request>, AllocError>
    ensures { Answers (read line.now) result }
{
    let mut words = Words::of(unended(line));
    match words.next() {
        None | Some([b'#', ..]) => Ok(Some(Request::Blank)),
        Some(word) => match verb_of(word) {
            Some(verb) => by_verb(heap, verb, words),
            None => Ok(None),
        },
    }
}
