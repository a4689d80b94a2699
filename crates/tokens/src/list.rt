// The list source: a table of tokens of any length, in order, and then the end.
ghost use Rattle.std.specs.Prelude.{◌≡◌, List};
ghost use Rattle.tokens.specs.declared.token.Token.{Token};
ghost use Rattle.tokens.specs.Sources.{Ending};

use super::refusal::Refusal;
use super::source::Source;
use super::token::Token;
use std::marker::Model;

// The rows of a table that are still to come.
#[derive(Drop)]
pub struct ListSource<'a> {
    tokens: &'a [Token],
}

impl<'a> Model for ListSource<'a> {
    ghost Value = { List Token };

    ghost view = { λ s. s.tokens.now };
}

impl<'a> ListSource<'a> {
    // A source of all the rows of the table.
    pub fn new(tokens: &'a [Token]) -> ListSource<'a>
        ensures { result ≡ tokens.now }
    {
        ListSource { tokens }
    }
}

impl<'a> Source for ListSource<'a> {
    const NUMBER: u16 = 2;

    ghost number = { 2 };

    ghost tokens = { λ s. s };

    ghost ending = { λ s. Ending.end };

    fn own_number() -> u16
        ensures { result ≡ 2 }
    {
        Self::NUMBER
    }

    fn ask(&mut self) -> Result<Option<Token>, Refusal> {
        Ok(self.tokens.split_off_first().copied())
    }
}
