// The list of all readings.
ghost use Rattle.std.specs.Prelude.{◌≡◌, ℕ, ◌+◌, ◌≤◌, List, [], ◌∷◌, ◌++◌, map, length, vec_items, vec_len, MatchResult, OnOk};
ghost use Rattle.lister.specs.Cursors.{Somewhere, Wherever};
ghost use Rattle.lister.specs.Listing.{Law, last, Collects, Uncollected};
ghost use Rattle.lister.specs.Next.{Blank, Determined};

use super::answer::next;
use super::cursor::Cursor;
use std::alloc::{AllocError, Global};
use tokens::Refusal;

// The last of the lists, or the empty list.
fn last_of(lists: &[Vec<u16>]) -> &[u16]
    ensures { result.now ≡ last (map vec_items lists.now) }
{
    match lists {
        [.., list] => list,
        [] => &[],
    }
}

// Adds a copy of the list at the end.
fn append(heap: Global, lists: &mut Vec<Vec<u16>>, list: &[u16]) -> Result<(), AllocError>
    ensures lists { OnOk result (map vec_items lists.new.items ≡ map vec_items lists.old.items ++ list.now ∷ []) }
    ensures len { OnOk result (vec_len lists.new ≡ vec_len lists.old + 1) }
{
    lists.push(list.to_vec(heap)?)?;
    Ok(())
}

// All readings, in rising order, each once: the answers of next from the empty list on. Where one is longer than the
// buffer, or there is no memory, it refuses. The buffer is left with zeros. A cursor that stands in no script could
// answer for ever; then the loop ends with the memory, at the latest.
pub fn collect<C: Cursor>(
    heap: Global,
    cursor: &mut C,
    buffer: &mut [u16],
) -> Result<Vec<Vec<u16>>, Refusal>
    ensures { Wherever (C.Cursor.stands cursor.old) (λ t room p. length buffer.old ≤ room → Somewhere (C.Cursor.stands cursor.new t room) × Blank buffer.new × MatchResult result (λ v. Collects (C.Cursor.readings t) (length buffer.old) (map vec_items v.items)) (λ e. Uncollected (C.Cursor.readings t) (length buffer.old) e)) }
{
    let mut lists = Vec::new(heap);
    while let Some(n) = next(cursor, last_of(&lists), buffer)? {
        if let Err(error) = append(heap, &mut lists, &buffer[..n]) {
            buffer.fill(0);
            return Err(Refusal::from(error));
        }
    }
    Ok(lists)
}

// A list and the length of the buffer determine what next answers and writes; and what is listed, from the empty list
// on, by handing each answer back.
pub fn listing_stands<C: Cursor>(cursor: &C)
    ensures answers { Wherever (C.Cursor.stands cursor.now) (λ t room p. Determined (C.Cursor.readings t)) }
    ensures listing { Wherever (C.Cursor.stands cursor.now) (λ t room p. Law (C.Cursor.readings t)) }
{}
