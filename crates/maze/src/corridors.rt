// The corridors of a part, of a gate and of an input's room, one by one.
ghost use Rattle.std.specs.Prelude.{◌≡◌, true, cond, [], ◌∷◌, ◌≤◌, eqb};
ghost use Rattle.sets.specs.Words.{bits};
ghost use Rattle.rules.specs.Statements.{Stmt};
ghost use Rattle.forms.specs.Forms.{At};
ghost use Rattle.mazes.specs.Mazes.{OfForm, visible, secret, signal, part, dungeon, gate, corridors, gate_corridors, nth};
ghost use Rattle.maze.specs.Ways.{is_present, way_by, corridor_told, gives_one};

use crate::form::is_nothing;
use crate::{Corridor, Room};
use tables::Table;
use tables::kinds::wide;
use tables::loops::second_at;

// Whether a statement gives a's room a corridor of its own: an emit of a, or a test.
fn gives_one(kind: u16, operand: u16, a: usize) -> bool
    ensures { result ≡ gives_one kind operand a }
{
    match kind {
        18 => a == wide(operand),
        _ => kind == 19,
    }
}

// That corridor: from an emit to the dungeon, from a test to its gate.
fn given_by(kind: u16, at: usize, a: usize) -> Corridor
    ensures { corridor_told result ≡ way_by (nth (visible (cond (eqb kind 19) (gate at a) dungeon) ∷ []) 0) }
{
    if kind == 19 {
        return Corridor::Visible(Room::Gate(at, a));
    }
    Corridor::Visible(Room::Dungeon)
}

// The rows to go on by: a test is passed with all below it, a parallel's arms come next.
fn passed(kind: u16, size: u16) -> usize
    ensures { (1 ≤ result) × (result ≤ 65536) × (kind ≡ 19 → 1 ≤ size → result ≡ size) × ((kind ≡ 19 → ⊥) → result ≡ 1) }
{
    if kind == 19 && 0 < size {
        wide(size)
    } else {
        1
    }
}

// Corridor n of the room of the statement at i as a sees it.
pub(crate) fn from_part(table: &Table, i: usize, a: usize, n: usize) -> Corridor
    requires { (t : Stmt) × At table.now i t }
    ensures { (t : Stmt) → At table.now i t → OfForm t → corridor_told result ≡ way_by (nth (corridors a i t) n) }
{
    let end = i + wide(table.sizes[i]);
    let mut j = i;
    let mut left = n;
    while j < end {
        let kind = table.kinds[j];
        let on = passed(kind, table.sizes[j]);
        if gives_one(kind, table.operands[j], a) {
            if left == 0 {
                return given_by(kind, j, a);
            }
            left -= 1;
        }
        j += on;
    }
    Corridor::NoMore
}

// Corridor n of the gate of a test of s whose then part is at p.
fn then_gate(s: usize, p: usize, a: usize, n: usize) -> Corridor
    ensures { corridor_told result ≡ way_by (nth (visible (signal s) ∷ visible (part p a) ∷ []) n) }
{
    match n {
        0 => Corridor::Visible(Room::Signal(s)),
        1 => Corridor::Visible(Room::Part(p, a)),
        _ => Corridor::NoMore,
    }
}

// And of one whose else part is at q: there the corridor to the signal's room is secret.
fn else_gate(s: usize, q: usize, a: usize, n: usize) -> Corridor
    ensures { corridor_told result ≡ way_by (nth (secret (signal s) ∷ visible (part q a) ∷ []) n) }
{
    match n {
        0 => Corridor::Secret(Room::Signal(s)),
        1 => Corridor::Visible(Room::Part(q, a)),
        _ => Corridor::NoMore,
    }
}

// Corridor n of the gate of the test at i as a sees it.
pub(crate) fn from_gate(table: &Table, i: usize, a: usize, n: usize) -> Corridor
    requires { (t : Stmt) × At table.now i t }
    ensures { (t : Stmt) → At table.now i t → is_present t ≡ true
        → corridor_told result ≡ way_by (nth (gate_corridors a i t) n) }
{
    let s = wide(table.operands[i]);
    let second = second_at(table, i);
    if is_nothing(table, second) {
        return then_gate(s, i + 1, a, n);
    }
    else_gate(s, second, a, n)
}

// Whether an input is in the set that is given.
fn is_given(given: u64, s: usize) -> bool
    ensures { result ≡ bits given s }
{
    s < 64 && (given >> s) % 2 == 1
}

// Corridor n of an input's room: one to the dungeon where it is present, none where it is absent.
pub(crate) fn from_input(given: u64, s: usize, n: usize) -> Corridor
    ensures { corridor_told result ≡ way_by (nth (cond (bits given s) (visible dungeon ∷ []) []) n) }
{
    if n == 0 && is_given(given, s) {
        return Corridor::Visible(Room::Dungeon);
    }
    Corridor::NoMore
}
