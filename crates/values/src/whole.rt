// The calls on whole blocks: two compared, loops doubled, edition 2 converted, blocks as text, the maze and its corridors.
ghost use Rattle.std.specs.Prelude.{◌≡◌, ◌∷◌, Err};
ghost use Rattle.writing.specs.Answers.{wrote_values};
ghost use Rattle.maze.specs.Ways.{room_of, corridor_told, way_told};
ghost use Rattle.values.specs.Asking.{room_for};
ghost use Rattle.values.specs.Whole.{likeness_values, Compares, doubling_owed, doubling_leaves, conversion_owed, conversion_leaves, text_owed, text_leaves, block_owed, block_leaves};
ghost use Rattle.values.specs.Whole.{maze_values, ShowsMaze, room_by, room_values, way_values, corridor_owed};

use foldheron::{Corridor, NotCompared, Refused, Room, Rooms, number_of};

// Number, place, which block, and the size of the run.
fn compared(answer: Result<Option<usize>, NotCompared>) -> [u64; 4]
    ensures { result ≡ likeness_values answer }
{
    match answer {
        Ok(run) => [0, 0, 0, run.unwrap_or(0) as u64],
        Err(e) => not_compared(e),
    }
}

fn not_compared(e: NotCompared) -> [u64; 4]
    ensures { result ≡ likeness_values (Err e) }
{
    match e {
        NotCompared::First(r) => [number_of(r.why) as u64, r.place as u64, 1, 0],
        NotCompared::Second(r) => [number_of(r.why) as u64, r.place as u64, 2, 0],
        NotCompared::Both(why) => [number_of(why) as u64, 0, 0, 0],
    }
}

pub fn alike(first: &[u8], second: &[u8], run: &mut [u8]) -> [u64; 4]
    ensures { Compares first.now second.now run.old run.new result }
{
    compared(foldheron::alike(first, second, run))
}

// Number, place, and how many bytes were written.
fn wrote(answer: Result<usize, Refused>) -> [u64; 3]
    ensures { result ≡ wrote_values answer }
{
    match answer {
        Ok(size) => [0, 0, size as u64],
        Err(r) => [number_of(r.why) as u64, r.place as u64, 0],
    }
}

pub fn double_loops(block: &[u8], out: &mut [u8]) -> [u64; 3]
    ensures value { result ≡ doubling_owed block.now out.old }
    ensures out_after { out.new ≡ doubling_leaves block.now out.old }
{
    wrote(foldheron::double_loops(block, out))
}

pub fn convert(block: &[u8], out: &mut [u8]) -> [u64; 3]
    ensures value { result ≡ conversion_owed block.now out.old }
    ensures out_after { out.new ≡ conversion_leaves block.now out.old }
{
    wrote(foldheron::convert(block, out))
}

pub fn write_text(block: &[u8], text: &mut [u8]) -> [u64; 3]
    ensures value { result ≡ text_owed block.now text.old }
    ensures text_after { text.new ≡ text_leaves block.now text.old }
{
    wrote(foldheron::write_text(block, text))
}

pub fn read_text(text: &[u8], block: &mut [u8]) -> [u64; 3]
    ensures value { result ≡ block_owed text.now block.old }
    ensures block_after { block.new ≡ block_leaves text.now block.old }
{
    wrote(foldheron::read_text(text, block))
}

// Number, place, and the signals whose rooms win, lose and draw.
fn viewed(answer: Result<Rooms, Refused>) -> [u64; 5]
    ensures { result ≡ maze_values answer }
{
    match answer {
        Ok(r) => [0, 0, r.winning, r.losing, r.drawn],
        Err(r) => [number_of(r.why) as u64, r.place as u64, 0, 0, 0],
    }
}

pub fn maze(block: &[u8], inputs: u64) -> [u64; 5]
    ensures { ShowsMaze block.now inputs result }
{
    viewed(foldheron::maze(block, inputs))
}

// The room that is named by number. Another number names signal 64's, which no block has.
fn room_by(room: u16, first: usize, second: usize) -> Room
    ensures { room_of result ≡ room_for (room_by room first second) }
{
    match room {
        0 => Room::Signal(first),
        1 => Room::Part(first, second),
        2 => Room::Gate(first, second),
        3 => Room::Dungeon,
        _ => Room::Signal(64),
    }
}

// A corridor and the room that it leads to.
fn leading(way: u64, room: Room) -> [u64; 6]
    ensures { result ≡ 0 ∷ 0 ∷ way ∷ room_values (room_of room) }
{
    match room {
        Room::Signal(s) => [0, 0, way, 0, s as u64, 0],
        Room::Part(i, a) => [0, 0, way, 1, i as u64, a as u64],
        Room::Gate(i, a) => [0, 0, way, 2, i as u64, a as u64],
        Room::Dungeon => [0, 0, way, 3, 0, 0],
    }
}

fn shown(corridor: Corridor) -> [u64; 6]
    ensures { result ≡ way_values (corridor_told corridor) }
{
    match corridor {
        Corridor::Visible(room) => leading(1, room),
        Corridor::Secret(room) => leading(2, room),
        Corridor::NoMore => [0, 0, 0, 0, 0, 0],
        Corridor::NoRoom => [0, 0, 3, 0, 0, 0],
    }
}

// Number, place, which corridor, and the room that it leads to.
fn led(answer: Result<Corridor, Refused>) -> [u64; 6]
    ensures { result ≡ way_values (way_told answer) }
{
    match answer {
        Ok(found) => shown(found),
        Err(r) => [number_of(r.why) as u64, r.place as u64, 0, 0, 0, 0],
    }
}

pub fn corridor(
    block: &[u8],
    inputs: u64,
    room: u16,
    first: usize,
    second: usize,
    n: usize,
) -> [u64; 6]
    ensures { result ≡ corridor_owed block.now inputs (room_by room first second) n }
{
    let named = room_by(room, first, second);
    led(foldheron::corridor(block, inputs, named, n))
}
