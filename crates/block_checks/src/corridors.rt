// Corridors. The numbers of a case after the place: the inputs as of a maze, the room (0 a signal's, 1 a part's, 2 a gate, 3 the dungeon) with its two numbers, which of its
// corridors; and what is expected: 0 a visible one, 1 a secret one, 2 no more, 3 no such room, and the room it leads to.
use crate::rooms::inputs_of;
use checking::lines::Line;
use checking::{Outcome, say};
use foldheron::{Corridor, Room};
use std::io;

pub(crate) fn ask(out: &impl Print, line: Line<'_>, block: &[u8]) -> io::Result<()> {
    let index = line.number(8).into();
    let answer = foldheron::corridor(block, inputs_of(line), room_of(line), index);
    let (way, room) = match answer {
        Ok(Corridor::Visible(room)) => (0, Some(room)),
        Ok(Corridor::Secret(room)) => (1, Some(room)),
        Ok(Corridor::NoMore) => (2, None),
        Ok(Corridor::NoRoom) => (3, None),
        Err(refused) => return say(out, line.name, refused.into(), line.expected(1)),
    };
    say(out, line.name, Outcome(0, 0), line.expected(1))?;
    say(
        out,
        b"  its way ",
        Outcome(way, 0),
        Outcome(line.number(9).into(), 0),
    )?;
    match room {
        Some(room) => led(out, line, room),
        None => Ok(()),
    }
}

fn room_of(line: Line<'_>) -> Room {
    let a = line.number(6).into();
    let b = line.number(7).into();
    match line.number(5) {
        0 => Room::Signal(a),
        1 => Room::Part(a, b),
        2 => Room::Gate(a, b),
        _ => Room::Dungeon,
    }
}

fn led(out: &impl Print, line: Line<'_>, room: Room) -> io::Result<()> {
    let (to, seen_by) = match room {
        Room::Signal(s) => (Outcome(0, s), 0),
        Room::Part(i, a) => (Outcome(1, i), a),
        Room::Gate(i, a) => (Outcome(2, i), a),
        Room::Dungeon => (Outcome(3, 0), 0),
    };
    say(out, b"  to a room ", to, line.expected(10))?;
    let seen_by = Outcome(seen_by as u64, 0);
    say(
        out,
        b"  seen by ",
        seen_by,
        Outcome(line.number(12).into(), 0),
    )
}
