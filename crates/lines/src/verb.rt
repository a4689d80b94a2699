// The commands of the line format, by their first word.
ghost use Rattle.std.specs.Prelude.{◌≡◌};
ghost use Rattle.lines.specs.Verbs.{verb_at};

// The commands. Each reads its words in its own way, and a match names them all.
#[derive(Clone, Copy, Debug, PartialEq, Eq)]
pub enum Verb {
    Literal,
    Rule,
    Start,
    Load,
    Script,
    Tokens,
}

// The command that a word names.
pub(crate) fn verb_of(word: &[u8]) -> Option<Verb>
    ensures { result ≡ verb_at word.now }
{
    match word {
        b"literal" => Some(Verb::Literal),
        b"rule" => Some(Verb::Rule),
        b"start" => Some(Verb::Start),
        b"load" => Some(Verb::Load),
        b"script" => Some(Verb::Script),
        b"tokens" => Some(Verb::Tokens),
        _ => None,
    }
}
