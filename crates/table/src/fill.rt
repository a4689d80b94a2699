// Filling a table from a row on.
ghost use Rattle.std.specs.Prelude.{◌≡◌, ◌-◌, ◌≤◌, ◌++◌, length, take, replicate};

// Writes the row over every row from number n on.
pub fn fill_from<T: Copy>(rows: &mut [T], n: usize, row: T)
    requires { n ≤ length rows.old }
    ensures { rows.new ≡ take n rows.old ++ replicate (length rows.old - n) row }
{
    rows[n..].fill_with(|| row);
}
