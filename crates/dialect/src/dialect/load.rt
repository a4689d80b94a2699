// Loading: a dialect made of rows that pass every test.
ghost use Rattle.dialect.specs.Loads.{Made, Loaded};

use super::Dialect;
use crate::examine::{Tables, examine};
use rows::DialectRows;
use std::alloc::Global;
use tokens::Refusal;

impl Dialect {
    // A dialect of the rows, or why there is none.
    pub(crate) fn make(heap: Global, rows: &DialectRows) -> Result<Dialect, Refusal>
        ensures { Made rows.now.literals.now rows.now.rules.now rows.now.start result }
    {
        let Tables { nullable, ranks } = examine(rows)?;
        Ok(Dialect {
            literals: rows.literals.to_vec(heap)?,
            rules: rows.rules.to_vec(heap)?,
            start: rows.start,
            nullable,
            ranks,
        })
    }

    // Loads the rows, or says what is wrong with the first row at fault and leaves the dialect as it is.
    pub fn load(&mut self, heap: Global, rows: &DialectRows) -> Result<(), Refusal>
        ensures { Loaded self.old self.new rows.now.literals.now rows.now.rules.now rows.now.start result }
    {
        *self = Dialect::make(heap, rows)?;
        Ok(())
    }
}
