// CLASH: two active pauses that are not compatible, by a walk down the table of the block.
ghost use Rattle.std.specs.Prelude.{◌≡◌, true, false, List, ℕ, ◌+◌, ◌≤◌, ◌<◌, T, get_or};
ghost use Rattle.std.proofs.Math.Option.{none};
ghost use Rattle.sets.specs.Words.{set_of};
ghost use Rattle.rules.specs.Statements.{Stmt};
ghost use Rattle.rules.specs.States.{compatible};
ghost use Rattle.records.specs.StateRecord.{clashes, first_clash};
ghost use Rattle.records.specs.Clashing.{pair_of, Searchable, Bounded, Filled, Pairable, two_parts, Place, Goes};
ghost use Rattle.records.specs.Clashing.{Flagged, Agreed, Quiet};

use crate::bits::{bit_beyond, has};
use tables::Table;
use tables::loops::second_at;

// How many pauses stand before each statement of the table.
fn pauses_before(table: &Table, count: usize) -> [u16; 512]
    requires { count ≤ 512 }
    ensures { Filled table.now.kinds count result }
{
    let mut firsts = [0u16; 512];
    let mut n: u16 = 0;
    for i in 0..count {
        firsts[i] = n;
        if table.kinds[i] == 17 {
            n += 1;
        }
    }
    firsts
}

// The statements of this kind have two parts: the kinds that have two children in the block's format. Written out, since this is asked on
// each level for each pair of active pauses.
fn has_two_parts(kind: u16) -> bool
    ensures { result ≡ two_parts kind }
{
    matches!(kind, 19 | 21 | 23)
}

// The part that holds both pauses, or the statement itself where none does: it is then the lowest above both.
fn toward(table: &Table, firsts: &[u16; 512], i: usize, m: u16, n: u16) -> usize
    requires { (p : Stmt) × Place table.now.kinds table.now.sizes firsts.now m n i p }
    ensures { (p : Stmt) → Place table.now.kinds table.now.sizes firsts.now m n i p → Goes table.now.kinds table.now.sizes firsts.now m n i result p }
{
    if has_two_parts(table.kinds[i]) {
        let second = i + 1 + table.sizes[i + 1] as usize;
        let split = firsts[second];
        if n < split {
            return i + 1;
        }
        if m < split {
            return i;
        }
        return second;
    }
    i + 1
}

// The lowest statement above both pauses is a parallel.
fn in_parallel(table: &Table, firsts: &[u16; 512], m: u16, n: u16) -> bool
    requires { (t : Stmt) × Place table.now.kinds table.now.sizes firsts.now m n 0 t }
    ensures { (t : Stmt) → Place table.now.kinds table.now.sizes firsts.now m n 0 t → result ≡ compatible t m n }
{
    let mut at: usize = 0;
    loop {
        let next = toward(table, firsts, at, m, n);
        if next == at {
            break;
        }
        at = next;
    }
    table.kinds[at] == 23
}

// An active first pause clashes with the second: it is active too, and the two are not compatible.
fn clashing(table: &Table, firsts: &[u16; 512], active: [u64; 2], m: u16, n: u16) -> bool
    requires { Pairable table.now.kinds table.now.sizes firsts.now active m n }
    ensures { (count : ℕ) (t : Stmt) → Searchable table.now.kinds table.now.sizes count active t
        → Filled table.now.kinds count firsts.now → result ≡ clashes t (set_of active) m n }
{
    has(active, n) && !in_parallel(table, firsts, m, n)
}

// A row's flag; past the table there is none.
fn flag_at(live: &[bool; 512], at: usize) -> bool
    ensures { at < 512 → result ≡ get_or live.now at false }
{
    at < 512 && live[at]
}

// The pause is active; from the bound on none is.
fn is_active(active: [u64; 2], pauses: u16, n: u16) -> bool
    requires { Bounded pauses active }
    ensures { result ≡ set_of active n }
{
    n < pauses && has(active, n)
}

// Whether the statement at a place holds an active pause, where the later ones have their flags.
fn flag_of(
    table: &Table,
    firsts: &[u16; 512],
    live: &[bool; 512],
    pauses: u16,
    active: [u64; 2],
    i: usize,
) -> bool
    requires { (i < 512) × Bounded pauses active }
    ensures { (count : ℕ) → Filled table.now.kinds count firsts.now
        → Quiet table.now.kinds table.now.sizes count active live.now (i + 1) → Flagged table.now.kinds table.now.sizes count active i result }
{
    if table.kinds[i] == 17 {
        return is_active(active, pauses, firsts[i]);
    }
    if table.sizes[i] < 2 {
        return false;
    }
    if flag_at(live, i + 1) {
        return true;
    }
    if has_two_parts(table.kinds[i]) {
        return flag_at(live, second_at(table, i));
    }
    false
}

// Both parts of the statement at a place hold an active pause, and it is no parallel.
fn parts_clash(table: &Table, live: &[bool; 512], i: usize) -> bool
    requires { i < 512 }
    ensures { (count : ℕ) (active : List ℕ) → Quiet table.now.kinds table.now.sizes count active live.now (i + 1) → result ≡ false
        → Agreed table.now.kinds table.now.sizes count active i }
{
    table.kinds[i] != 23
        && has_two_parts(table.kinds[i])
        && flag_at(live, i + 1)
        && flag_at(live, second_at(table, i))
}

// Both parts of some present or of some sequence hold an active pause. Where that is so of none no two active pauses clash, and the pairs
// need not be gone through.
fn some_clash(
    table: &Table,
    firsts: &[u16; 512],
    count: usize,
    pauses: u16,
    active: [u64; 2],
) -> bool
    requires { (count ≤ 512) × Filled table.now.kinds count firsts.now × Bounded pauses active }
    ensures { result ≡ false → (t : Stmt) → Searchable table.now.kinds table.now.sizes count active t → none ≡ first_clash t (set_of active) }
{
    let mut live = [false; 512];
    for i in (0..count).rev() {
        if parts_clash(table, &live, i) {
            return true;
        }
        let flag = flag_of(table, firsts, &live, pauses, active, i);
        live[i] = flag;
    }
    false
}

// The lowest first pause, then the lowest second, of a pair that clashes: pair by pair, in the form that document 01 names for this place.
fn named_clash(
    table: &Table,
    firsts: &[u16; 512],
    count: usize,
    pauses: u16,
    active: [u64; 2],
) -> Option<(u16, u16)>
    requires { ((t : Stmt) × Searchable table.now.kinds table.now.sizes count active t) × Bounded pauses active × Filled table.now.kinds count firsts.now }
    ensures { (t : Stmt) → Searchable table.now.kinds table.now.sizes count active t → pair_of result ≡ first_clash t (set_of active) }
{
    let mut found = None;
    'pairs: for m in 0u16..pauses {
        if has(active, m) {
            for n in m + 1..pauses {
                if clashing(table, firsts, active, m, n) {
                    found = Some((m, n));
                    break 'pairs;
                }
            }
        }
    }
    found
}

// At most one pause is active: nothing is active behind the first that is.
fn at_most_one(active: [u64; 2], pauses: u16) -> bool
    requires { Bounded pauses active }
    ensures { result ≡ true → (m n : ℕ) → m < n → T (set_of active m) → T (set_of active n) → ⊥ }
{
    for m in 0u16..pauses {
        if has(active, m) {
            return !bit_beyond(m + 1, active);
        }
    }
    true
}

// The first pair that clashes. The rows are gone through where two pauses are active, the pairs only where there is one.
pub fn first_clash(table: &Table, count: usize, pauses: u16, active: [u64; 2]) -> Option<(u16, u16)>
    requires { ((t : Stmt) × Searchable table.now.kinds table.now.sizes count active t) × Bounded pauses active }
    ensures { (t : Stmt) → Searchable table.now.kinds table.now.sizes count active t → pair_of result ≡ first_clash t (set_of active) }
{
    if at_most_one(active, pauses) {
        return None;
    }
    let firsts = pauses_before(table, count);
    if some_clash(table, &firsts, count, pauses, active) {
        return named_clash(table, &firsts, count, pauses, active);
    }
    None
}
