// Where the least reading after a list leaves the list.
ghost use Rattle.std.specs.Prelude.{◌≡◌, ◌-◌, ◌≤◌, length, take};
ghost use Rattle.lister.specs.Cursors.{Searched, Wherever};
ghost use Rattle.lister.specs.Branches.{Walked, Misses, Branches, Inside};

use super::cursor::Cursor;

// The number of entries of the list that are kept, and the rule behind them.
#[derive(Clone, Copy)]
pub(crate) struct Branch {
    pub at: usize,
    pub rule: u16,
}

// Walks along the list from its start, as far as the walk stands, and says how far that is.
fn walk<C: Cursor>(cursor: &mut C, list: &[u16]) -> usize
    ensures within { result ≤ length list.now }
    ensures walked { Wherever (C.Cursor.stands cursor.old) (λ t room p. length list.now ≤ room → Walked (C.Cursor.readings t) (C.Cursor.stands cursor.new t room) list.now result) }
{
    cursor.back(0);
    for (i, &rule) in list.iter().enumerate() {
        if !cursor.follow(rule) {
            return i;
        }
    }
    list.len()
}

// The least rule with which some reading goes on behind what was walked.
fn extend<C: Cursor>(cursor: &mut C) -> Option<u16>
    ensures { Wherever (C.Cursor.stands cursor.old) (λ t room p. C.Cursor.stands cursor.new t room p × Searched (C.Cursor.readings t) p 0 result) }
{
    if cursor.whole() {
        None
    } else {
        cursor.least(0)
    }
}

// The branch at the last entry before end at which a higher rule goes on; no reading after the list keeps so many.
fn search_back<C: Cursor>(cursor: &mut C, list: &[u16], end: usize) -> Option<Branch>
    requires { end ≤ length list.now }
    ensures inside { Inside list.now result }
    ensures branches { Wherever (C.Cursor.stands cursor.old) (λ t room p. take (end - 1) p ≡ take (end - 1) list.now → Misses (C.Cursor.readings t) list.now end → Branches (C.Cursor.readings t) (C.Cursor.stands cursor.new t room) list.now result) }
{
    for (at, &kept) in list[..end].iter().enumerate().rev() {
        cursor.back(at);
        if let Some(rule) = cursor.least(u32::from(kept) + 1) {
            return Some(Branch { at, rule });
        }
    }
    None
}

// The branch of the least reading after the list; None where there is no such reading.
pub(crate) fn find_branch<C: Cursor>(cursor: &mut C, list: &[u16]) -> Option<Branch>
    ensures inside { Inside list.now result }
    ensures branches { Wherever (C.Cursor.stands cursor.old) (λ t room p. length list.now ≤ room → Branches (C.Cursor.readings t) (C.Cursor.stands cursor.new t room) list.now result) }
{
    let walked = walk(cursor, list);
    if walked < list.len() {
        return search_back(cursor, list, walked + 1);
    }
    if let Some(rule) = extend(cursor) {
        return Some(Branch { at: walked, rule });
    }
    search_back(cursor, list, walked)
}
