// The test of literal rows: an allowed length, and no spelling twice.
ghost use Rattle.std.specs.Prelude.{◌<◌, ◌≤◌, length, Decides};
ghost use Rattle.rows.specs.Rows.{Alike, LiteralOk, Finds};

use crate::row::LiteralRow;

// Whether two literals have the same counted bytes.
fn alike(a: &LiteralRow, b: &LiteralRow) -> bool
    requires { a.now.length ≤ 32 }
    ensures { Decides result (Alike a.now b.now) }
{
    a.spelling() == b.spelling()
}

// Whether a literal has an allowed length, and none of the earlier ones is spelled like it.
fn literal_ok(literals: &[LiteralRow], i: usize) -> bool
    requires { i < length literals.now }
    ensures { Decides result (LiteralOk literals.now i) }
{
    let literal = &literals[i];
    (1..=32).contains(&literal.length)
        && literals[..i].iter().all(|earlier| !alike(literal, earlier))
}

// The first literal row that has a wrong length or is spelled as an earlier one.
pub fn literal_fault(literals: &[LiteralRow]) -> Option<usize>
    ensures { Finds (LiteralOk literals.now) (length literals.now) result }
{
    (0..literals.len()).position(|i| !literal_ok(literals, i))
}
