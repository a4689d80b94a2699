// An offset of a script, with its column.
ghost use Rattle.std.specs.Prelude.{◌≡◌, ◌+◌, ◌<◌};
ghost use Rattle.cutting.specs.Columns.{past};

use cutting::column_after;

// An offset of a script, and the column of the byte that stands there.
#[derive(Clone, Copy, Debug, PartialEq, Eq)]
pub struct Position {
    pub place: usize,
    pub column: usize,
}

impl Position {
    // The position behind a byte.
    pub(crate) fn behind(self, b: u8) -> Position
        requires place { self.place < 1000000 }
        requires column { self.column < 1000000 }
        ensures place { result.place ≡ self.place + 1 }
        ensures column { result.column ≡ past self.column b }
    {
        Position {
            place: self.place + 1,
            column: column_after(self.column, b),
        }
    }
}
