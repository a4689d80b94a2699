// The writer of the least completion of a prefix.
ghost use Rattle.std.specs.Prelude.{ℕ, ◌+◌, ◌≤◌, List, [], ◌∷◌, ◌++◌, length, IfSome};
ghost use Rattle.lister.specs.Least.{Continues};
ghost use Rattle.lister.specs.Branches.{Completes};
ghost use Rattle.lister.specs.Cursors.{Somewhere, Wherever};

use super::cursor::Cursor;

// Behind what was walked, writes the least reading that goes on with the rule, and zeros behind it; None where rest
// is too short for it.
pub(crate) fn complete<C: Cursor>(cursor: &mut C, rule: u16, rest: &mut [u16]) -> Option<usize>
    ensures within { IfSome result (λ n. n ≤ length rest.new) }
    ensures completes { Wherever (C.Cursor.stands cursor.old) (λ t room p. length p + length rest.old ≤ room → Continues (C.Cursor.readings t) (p ++ rule ∷ []) → Somewhere (C.Cursor.stands cursor.new t room) × Completes (C.Cursor.readings t) p rule rest.new result) }
{
    rest.fill(0);
    let mut next = rule;
    for (n, entry) in rest.iter_mut().enumerate() {
        *entry = next;
        if !cursor.follow(next) {
            return None;
        }
        if cursor.whole() {
            return Some(n + 1);
        }
        next = cursor.least(0)?;
    }
    None
}
