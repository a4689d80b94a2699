// Columns: how far the bytes of a script move them.
ghost use Rattle.std.specs.Prelude.{◌≡◌, ◌+◌, ◌*◌, ◌<◌, length, fold};
ghost use Rattle.cutting.specs.Columns.{past};

// The column behind a byte that stands at a column.
pub fn column_after(column: usize, b: u8) -> usize
    requires { column < 1000000 }
    ensures { result ≡ past column b }
{
    match b {
        b'\t' => (column / 4 + 1) * 4,
        b'\n' => 0,
        b'\r' => column,
        _ => column + 1,
    }
}

// The column behind all bytes of a part that begins at a column.
pub fn columns(column: usize, part: &[u8]) -> usize
    requires { column + 4 * length part.now < 1000000 }
    ensures { result ≡ fold past column part.now }
{
    let mut c = column;
    for b in part {
        c = column_after(c, *b);
    }
    c
}
