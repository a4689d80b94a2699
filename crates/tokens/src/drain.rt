// All the tokens of a source, and what comes behind them.
ghost use Rattle.tokens.specs.Drained.{DrainedAll};

use super::refusal::Refusal;
use super::source::Source;
use super::token::Token;
use std::alloc::{AllocError, Global};

// The tokens that a source gave, and the fault that it ended with, if it did not end without one.
#[derive(Drop)]
pub struct Drained {
    pub tokens: Vec<Token>,
    pub fault: Option<Refusal>,
}

// Asks a source until it has no token left.
pub fn drain_source<S: Source>(heap: Global, source: &mut S) -> Result<Drained, AllocError>
    ensures { DrainedAll (S.Source.tokens source.old) (S.Source.ending source.old) result }
{
    let mut tokens = Vec::new(heap);
    loop {
        match source.ask() {
            Ok(Some(token)) => tokens.push(token)?,
            ending => {
                return Ok(Drained {
                    tokens,
                    fault: ending.err(),
                });
            }
        }
    }
}
