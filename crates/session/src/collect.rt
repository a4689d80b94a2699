// The load of what was collected.
ghost use Rattle.session.specs.Steps.{Loads};

use super::state::Session;
use lines::answer::Answer;
use rows::DialectRows;
use std::alloc::Global;

impl Session {
    // Loads what was collected, and forgets it.
    pub(crate) fn load(&mut self, heap: Global) -> Answer
        ensures { Loads self.old self.new result }
    {
        let literals = self.literals.len();
        let rules = self.rules.len();
        let rows = DialectRows {
            literals: &self.literals,
            rules: &self.rules,
            start: self.start,
        };
        let loaded = self.dialect.load(heap, &rows);
        self.literals.clear();
        self.rules.clear();
        self.start = 0;
        match loaded {
            Ok(()) => Answer::Loaded { literals, rules },
            Err(refusal) => Answer::refused(refusal),
        }
    }
}
