// The lowest statement of those that are marked, and of those on a path that are not.
ghost use Rattle.std.specs.Prelude.{◌≡◌, ◌≤◌, ◌<◌};
ghost use Rattle.sets.specs.Numbers.{lowest};
ghost use Rattle.reasons.specs.Taking.{named_of, marked_in, cut_rows};

use tables::Table;

pub(crate) fn lowest_marked(marks: &[bool; 512], count: usize) -> Option<usize>
    requires { count ≤ 512 }
    ensures { named_of result ≡ lowest count (marked_in marks.now) }
{
    marks[..count].iter().position(|&m| m)
}

// Whether statement n is the one in this row or stands below it, and the row was not executed.
fn is_cut(table: &Table, executed: &[bool; 512], n: usize, row: usize) -> bool
    requires { row < 512 }
    ensures { result ≡ cut_rows table.now.sizes n (marked_in executed.now) row }
{
    row <= n && n < row + table.sizes[row] as usize && !executed[row]
}

pub(crate) fn lowest_cut(
    table: &Table,
    executed: &[bool; 512],
    n: usize,
    count: usize,
) -> Option<usize>
    requires { count ≤ 512 }
    ensures { named_of result ≡ lowest count (cut_rows table.now.sizes n (marked_in executed.now)) }
{
    (0..count).find(|&row| is_cut(table, executed, n, row))
}
