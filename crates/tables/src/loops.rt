// The check of the loops: one walk over the table from the last statement to the first, with the codes of each statement.
ghost use Rattle.std.specs.Prelude.{◌≡◌, cond, ◌&&◌, ◌+◌, ◌≤◌, ◌<◌, eqb, get_or, length, IfSome};
ghost use Rattle.sets.specs.Words.{bits};
ghost use Rattle.rules.specs.Statements.{Stmt};
ghost use Rattle.tables.specs.Codes.{lowest_endless};
ghost use Rattle.tables.specs.Codes.{Tabled, found};

use crate::Table;
use crate::codes::codes_for;
use crate::kinds::{LOOP, wide};
use code_sets::has_code;

// A statement's codes, and none past the table's end.
fn word_at(codes: &[u32; 512], at: usize) -> u32
    requires { length codes.now ≡ 512 }
    ensures { result ≡ get_or codes.now at 0 }
{
    codes.get(at).copied().unwrap_or(0)
}

// The second child's number, after the first child and all below it.
pub fn second_at(table: &Table, at: usize) -> usize
    requires { at < 512 }
    ensures { (at + 1 < 512 → result ≡ at + 1 + get_or table.now.sizes (at + 1) 0) × (512 ≤ at + 1 → result ≡ at + 1) }
{
    let first = at + 1;
    if first < 512 {
        first + wide(table.sizes[first])
    } else {
        first
    }
}

// The statement itself where it is a loop whose body may complete with 0, else what was found before.
pub fn lower<T: Copy>(kind: u16, body: u32, at: T, found: T) -> T
    ensures { result ≡ cond (eqb kind 22 && bits body 0) at found }
{
    if kind == LOOP && has_code(body, 0) {
        at
    } else {
        found
    }
}

// The lowest endless loop.
pub fn lowest_endless(table: &Table, count: usize) -> Option<usize>
    requires { count ≤ 512 }
    ensures within { IfSome result (λ n. n < count) }
    ensures value { (t : Stmt) → Tabled table.now count t → result ≡ found (lowest_endless t) }
{
    let mut codes = [0u32; 512];
    let mut found = None;
    for i in (0..count).rev() {
        let first = word_at(&codes, i + 1);
        let second = word_at(&codes, second_at(table, i));
        let kind = table.kinds[i];
        codes[i] = codes_for(kind, table.operands[i], first, second);
        found = lower(kind, first, Some(i), found);
    }
    found
}
