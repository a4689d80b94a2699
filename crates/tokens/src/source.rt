// Sources of tokens, by what they mean.
ghost use Rattle.std.specs.Prelude.{◌≡◌, ℕ, List};
ghost use Rattle.tokens.specs.declared.token.Token.{Token};
ghost use Rattle.tokens.specs.Sources.{Ending, answer, rest};

use super::refusal::Refusal;
use super::token::Token;

// A source means a finite list of tokens still to come, and then an end or a fault. Asking gives the first token and
// removes it; once the list is empty it gives the end or the fault every time, and the meaning stays.
pub trait Source {
    // The number that every fault made in this source carries.
    const NUMBER: u16;

    ghost number: { ℕ };

    // The tokens still to come.
    ghost tokens: { Self → List Token };

    // What comes behind them.
    ghost ending: { Self → Ending };

    // The constant, tied to its meaning: a clause of the trait cannot name the constant itself.
    fn own_number() -> u16
        ensures { result ≡ number };

    // The next token, or none at the end; the fault, where the tokens end by one.
    fn ask(&mut self) -> Result<Option<Token>, Refusal>
        ensures answer { result ≡ answer (tokens self.old) (ending self.old) }
        ensures tokens { tokens self.new ≡ rest (tokens self.old) }
        ensures ending { ending self.new ≡ ending self.old };
}
