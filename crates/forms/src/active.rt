// The active pauses over the table: which statements hold one, and those that a suspended body holds.
ghost use Rattle.std.specs.Prelude.{◌≡◌, [], ◌∷◌, ◌+◌, ◌≤◌, ◌<◌};
ghost use Rattle.sets.specs.Words.{set_of};
ghost use Rattle.rules.specs.Statements.{Stmt};
ghost use Rattle.rules.specs.Instant.{active, held};
ghost use Rattle.forms.specs.Forms.{At, Placed, Live, LiveFrom, NoPauseFrom, row_pauses, among};

use crate::form::live_at;
use tables::Table;
use tables::kinds::wide;
use tables::loops::second_at;
use words::pauses::{has_pause, joined, no_pause, one_pause};

// Whether the statement at a place holds an active pause, where that is known of all later ones. How many children it has is told by the sizes.
fn holds_active(table: &Table, live: &[bool; 512], set: [u64; 2], at: usize) -> bool
    requires { at < 512 }
    ensures { LiveFrom table.now (set_of set) live.now (at + 1)
        → (t : Stmt) → At table.now at t → result ≡ active (set_of set) t }
{
    if table.kinds[at] == 17 {
        return has_pause(set, table.operands[at]);
    }
    let size = wide(table.sizes[at]);
    if size < 2 {
        return false;
    }
    let first = live_at(live, at + 1);
    let next = second_at(table, at);
    if next < at + size {
        return first || live_at(live, next);
    }
    first
}

// How many pauses stand in the rows from a place on. A count, so that the compiler may take many rows at a time.
fn pauses_from(table: &Table, from: usize) -> u16
    ensures { result ≡ 0 → NoPauseFrom table.now.kinds from }
{
    let mut found: u16 = 0;
    for i in from..512 {
        if table.kinds[i] == 17 {
            found += 1;
        }
    }
    found
}

// The rows that have to be gone through: those of the whole block, where no pause stands behind it, else all.
fn rows_used(table: &Table) -> usize
    ensures { (result ≤ 512) × NoPauseFrom table.now.kinds result }
{
    let count = wide(table.sizes[0]);
    if count < 512 && pauses_from(table, count) == 0 {
        return count;
    }
    512
}

// Which statements hold an active pause: from the last row to the first, so that a statement's children are done before it.
pub fn actives(table: &Table, set: [u64; 2]) -> [bool; 512]
    ensures { Live table.now (set_of set) result }
{
    let mut live = [false; 512];
    for i in (0..rows_used(table)).rev() {
        live[i] = holds_active(table, &live, set, i);
    }
    live
}

// A pause, if it is active.
fn held_one(set: [u64; 2], n: u16) -> [u64; 2]
    ensures { set_of result ≡ among (set_of set) (n ∷ []) }
{
    if has_pause(set, n) {
        one_pause(n)
    } else {
        no_pause()
    }
}

// A row's pause, if it is one and is active.
fn held_row(table: &Table, set: [u64; 2], at: usize) -> [u64; 2]
    requires { at < 512 }
    ensures { set_of result ≡ among (set_of set) (row_pauses table.now at) }
{
    if table.kinds[at] == 17 {
        held_one(set, table.operands[at])
    } else {
        no_pause()
    }
}

// The active pauses that the statement at a place holds.
pub fn held_pauses(table: &Table, set: [u64; 2], at: usize) -> [u64; 2]
    requires { Placed table.now at }
    ensures { (t : Stmt) → At table.now at t → set_of result ≡ held (set_of set) t }
{
    let size = wide(table.sizes[at]);
    let mut kept = no_pause();
    for n in 0..size {
        let row = held_row(table, set, at + n);
        let more = joined(kept, row);
        kept = more;
    }
    kept
}
