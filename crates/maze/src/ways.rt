// The corridors of every room of a caller's block: the tests in their written order, then the room that is named.
ghost use Rattle.std.specs.Prelude.{◌≡◌, true, ◌&&◌, ℕ, ◌+◌, ltb};
ghost use Rattle.sets.specs.Words.{bits};
ghost use Rattle.block.specs.Format.{Good};
ghost use Rattle.reaction.specs.Instants.{block_of};
ghost use Rattle.reaction.specs.Outcomes.{Opened};
ghost use Rattle.mazes.specs.Mazes.{of_form, signal, part, gate};
ghost use Rattle.maze.specs.Views as views;
ghost use Rattle.maze.specs.Views.{try_inputs, shown};
ghost use Rattle.maze.specs.Ways.{room_of, way_in, way_told, corridor_told};

use crate::corridors::{from_gate, from_input, from_part};
use crate::form::{in_form, is_nothing};
use crate::{Corridor, Room};
use block::whole::{Summary, read_block};
use records::bits::input_over;
use refusals::{Refused, Why};
use tables::Table;
use tables::kinds::wide;

// Whether a is a declared signal.
fn declared(s: Summary, a: usize) -> bool
    ensures { result ≡ ltb a (s.inputs + s.outputs) }
{
    a < wide(s.inputs) + wide(s.outputs)
}

// Whether there is a statement i for a declared signal a to see.
fn is_there(s: Summary, i: usize, a: usize) -> bool
    ensures { result ≡ (ltb a (s.inputs + s.outputs) && ltb i s.statements) }
{
    declared(s, a) && i < s.statements
}

// Corridor n of a's room.
fn of_signal(table: &Table, s: Summary, inputs: u64, a: usize, n: usize) -> Corridor
    requires { (g : Good) × Opened table.now s g }
    ensures { (g : Good) → Opened table.now s g
        → of_form g.body ≡ true → corridor_told result ≡ way_in (shown (block_of g) (bits inputs)) (signal a) n }
{
    if !declared(s, a) {
        return Corridor::NoRoom;
    }
    if a < wide(s.inputs) {
        return from_input(inputs, a, n);
    }
    from_part(table, 0, a, n)
}

// Corridor n of the room of statement i as a sees it; a present's nothing has none.
fn of_part(table: &Table, s: Summary, i: usize, a: usize, n: usize) -> Corridor
    requires { (g : Good) × Opened table.now s g }
    ensures { (g : Good) (given : ℕ) → Opened table.now s g
        → of_form g.body ≡ true → corridor_told result ≡ way_in (shown (block_of g) (bits given)) (part i a) n }
{
    if !is_there(s, i, a) {
        return Corridor::NoRoom;
    }
    if is_nothing(table, i) {
        return Corridor::NoMore;
    }
    from_part(table, i, a, n)
}

// Corridor n of the gate of test i as a sees it.
fn of_gate(table: &Table, s: Summary, i: usize, a: usize, n: usize) -> Corridor
    requires { (g : Good) × Opened table.now s g }
    ensures { (g : Good) (given : ℕ) → Opened table.now s g
        → corridor_told result ≡ way_in (shown (block_of g) (bits given)) (gate i a) n }
{
    if !is_there(s, i, a) {
        return Corridor::NoRoom;
    }
    match table.kinds[i] {
        19 => from_gate(table, i, a, n),
        _ => Corridor::NoRoom,
    }
}

// Corridor n of a room in the maze of a block of the form.
fn from_room(table: &Table, s: Summary, inputs: u64, room: Room, n: usize) -> Corridor
    requires { (g : Good) × Opened table.now s g }
    ensures { (g : Good) → Opened table.now s g
        → of_form g.body ≡ true → corridor_told result ≡ way_in (shown (block_of g) (bits inputs)) (room_of room) n }
{
    match room {
        Room::Signal(a) => of_signal(table, s, inputs, a, n),
        Room::Part(i, a) => of_part(table, s, i, a, n),
        Room::Gate(i, a) => of_gate(table, s, i, a, n),
        Room::Dungeon => Corridor::NoMore,
    }
}

// After the reading: INPUT, FORM, then the room.
fn past_reading(
    table: &Table,
    s: Summary,
    inputs: u64,
    room: Room,
    n: usize,
) -> Result<Corridor, Refused>
    requires { (g : Good) × Opened table.now s g }
    ensures { (g : Good) → Opened table.now s g
        → way_told result ≡ way_in (try_inputs g inputs) (room_of room) n }
{
    if input_over(s.inputs, inputs) {
        return Err(Why::Input.at(0));
    }
    if in_form(table, s.statements) {
        return Ok(from_room(table, s, inputs, room, n));
    }
    Err(Why::Form.at(0))
}

// Corridor n of a room, from 0 on, in the maze of the caller's block and input set.
pub fn corridor(block: &[u8], inputs: u64, room: Room, n: usize) -> Result<Corridor, Refused>
    ensures { way_told result ≡ way_in (views.view block.now inputs) (room_of room) n }
{
    let mut table = Table::empty();
    let s = read_block(block, &mut table)?;
    past_reading(&table, s, inputs, room, n)
}
