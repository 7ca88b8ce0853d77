// Mazes. The numbers of a case after the place: the inputs, 1 where signal 63 is among them too, how many signals there are, and of each whether its room wins (0), loses
// (1) or draws (2).
use checking::lines::Line;
use checking::{Outcome, say};
use foldheron::Rooms;
use std::io;

pub(crate) fn ask(out: &impl Print, line: Line<'_>, block: &[u8]) -> io::Result<()> {
    match foldheron::maze(block, inputs_of(line)) {
        Ok(rooms) => {
            say(out, line.name, Outcome(0, 0), line.expected(1))?;
            let wrong = Outcome(otherwise(line, rooms), 0);
            say(out, b"  rooms that end otherwise ", wrong, Outcome(0, 0))
        }
        Err(refused) => say(out, line.name, refused.into(), line.expected(1)),
    }
}

pub(crate) fn inputs_of(line: Line<'_>) -> u64 {
    match line.number(4) {
        1 => 1 << 63,
        _ => line.number(3).into(),
    }
}

// 0 where every signal's room ends as given and no other bit is set, 1 where a signal's does not, 2 where another bit is.
fn otherwise(line: Line<'_>, rooms: Rooms) -> u64 {
    let Rooms {
        winning: mut w,
        losing: mut l,
        drawn: mut d,
    } = rooms;
    for signal in 0..line.number(5) {
        let end = match line.number(6 + usize::from(signal)) {
            0 => (1, 0, 0),
            1 => (0, 1, 0),
            _ => (0, 0, 1),
        };
        if (w & 1, l & 1, d & 1) != end {
            return 1;
        }
        (w, l, d) = (w >> 1, l >> 1, d >> 1);
    }
    if (w, l, d) == (0, 0, 0) { 0 } else { 2 }
}
