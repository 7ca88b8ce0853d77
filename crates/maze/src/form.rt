// FORM over the table: each row fits its children, and the root is not nothing.
ghost use Rattle.std.specs.Prelude.{◌≡◌, true, ◌&&◌, ◌≤◌, ◌<◌, eqb, get_or, length};
ghost use Rattle.mazes.specs.Fitting.{one_alone, neither};
ghost use Rattle.maze.specs.Rows.{nothing_at, row_fits, rows_fit};

use tables::Table;
use tables::loops::second_at;

// Row i is a nothing; past the table's end there is none.
#[tactic(auto, unfolding(crate::specs::Rows::nothing_at))]
pub(crate) fn is_nothing(table: &Table, i: usize) -> bool
    ensures { result ≡ nothing_at table.now.kinds i }
{
    i < 512 && table.kinds[i] == 16
}

// A present has nothing in exactly one branch, a parallel in no arm; besides these only emits stand, and the nothings that a present has.
fn row_fits(table: &Table, i: usize) -> bool
    requires { i < 512 }
    ensures { result ≡ row_fits table.now.kinds table.now.sizes i }
{
    let first = is_nothing(table, i + 1);
    let second = is_nothing(table, second_at(table, i));
    match table.kinds[i] {
        16 | 18 => true,
        19 => first != second,
        23 => !first && !second,
        _ => false,
    }
}

// Every row of the first so many, and the root is not nothing.
pub(crate) fn in_form(table: &Table, count: usize) -> bool
    requires { count ≤ 512 }
    ensures { result ≡ rows_fit table.now.kinds table.now.sizes count }
{
    if is_nothing(table, 0) {
        return false;
    }
    for i in 0..count {
        if !row_fits(table, i) {
            return false;
        }
    }
    true
}
