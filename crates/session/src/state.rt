// What stands between two lines.
ghost use Rattle.session.specs.Steps.{Begun};

use dialect::Dialect;
use rows::{LiteralRow, RuleRow};
use std::alloc::Global;
use tokens::Refusal;

// The dialect, the rows and the start that are collected for the next load, and the script.
#[derive(Drop)]
pub struct Session {
    pub dialect: Dialect,
    pub literals: Vec<LiteralRow>,
    pub rules: Vec<RuleRow>,
    pub start: u16,
    pub script: Vec<u8>,
}

impl Session {
    // A session with the built-in dialect, nothing collected and an empty script.
    pub fn new(heap: Global) -> Result<Session, Refusal>
        ensures { Begun result }
    {
        let dialect = Dialect::builtin(heap)?;
        Ok(Session {
            dialect,
            literals: Vec::new(heap),
            rules: Vec::new(heap),
            start: 0,
            script: Vec::new(heap),
        })
    }
}
