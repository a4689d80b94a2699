// The least reading after a list.
ghost use Rattle.std.specs.Prelude.{◌≤◌, length};
ghost use Rattle.lister.specs.Cursors.{Somewhere, Wherever};
ghost use Rattle.lister.specs.Next.{Answered, Within, cleared};

use super::branch::{Branch, find_branch};
use super::cursor::Cursor;
use super::writer::complete;
use tokens::Refusal;

// As `next`, but without an answer the buffer may hold anything.
fn write_least<C: Cursor>(
    cursor: &mut C,
    list: &[u16],
    buffer: &mut [u16],
) -> Result<Option<usize>, Refusal>
    ensures within { Within (length buffer.new) result }
    ensures answered { Wherever (C.Cursor.stands cursor.old) (λ t room p. length buffer.old ≤ room → Somewhere (C.Cursor.stands cursor.new t room) × Answered (C.Cursor.readings t) list.now (cleared result buffer.new) result) }
{
    if buffer.len() < list.len() {
        return Err(Refusal::LongList);
    }
    let Some(Branch { at, rule }) = find_branch(cursor, list) else {
        return Ok(None);
    };
    let (kept, rest) = buffer.split_at_mut(at);
    kept.copy_from_slice(&list[..at]);
    let n = complete(cursor, rule, rest).ok_or(Refusal::LongList)?;
    Ok(Some(at + n))
}

// Writes the least reading after the list into the buffer, with zeros behind it, and answers its length; None where
// no reading is after the list. Where the list or that reading is longer than the buffer, it refuses. Without an answer
// the buffer is all zeros. The cursor has to have room for as many entries as the buffer has.
pub fn next<C: Cursor>(
    cursor: &mut C,
    list: &[u16],
    buffer: &mut [u16],
) -> Result<Option<usize>, Refusal>
    ensures within { Within (length buffer.new) result }
    ensures answered { Wherever (C.Cursor.stands cursor.old) (λ t room p. length buffer.old ≤ room → Somewhere (C.Cursor.stands cursor.new t room) × Answered (C.Cursor.readings t) list.now buffer.new result) }
{
    let answer = write_least(cursor, list, buffer);
    if !matches!(answer, Ok(Some(_))) {
        buffer.fill(0);
    }
    answer
}
