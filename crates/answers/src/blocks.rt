// The answers of the calls that take blocks alone, with no state: the maze, two blocks compared, loop bodies doubled, edition 2 converted, and blocks as text.
use crate::refused;
use foldheron::{NotCompared, Refused};

// Number, place, and the signals whose rooms win, lose and draw.
pub fn maze(block: &[u8], inputs: u64) -> [u64; 5] {
    match foldheron::maze(block, inputs) {
        Ok(rooms) => [0, 0, rooms.winning, rooms.losing, rooms.drawn],
        Err(r) => refused(r),
    }
}

// Number, place, 1 where a refusal is of the second block, and the size of the run that tells the blocks apart.
pub fn alike(first: &[u8], second: &[u8], run: &mut [u8]) -> [u64; 4] {
    match foldheron::alike(first, second, run) {
        Ok(None) => [0; 4],
        Ok(Some(size)) => [0, 0, 0, size as u64],
        Err(NotCompared::First(r)) => refused(r),
        Err(NotCompared::Second(r)) => {
            let [number, place] = refused::<2>(r);
            [number, place, 1, 0]
        }
        Err(NotCompared::Both(why)) => refused(why.at(0)),
    }
}

pub fn copies(block: &[u8], out: &mut [u8]) -> [u64; 3] {
    wrote(foldheron::double_loops(block, out))
}

pub fn convert(block: &[u8], out: &mut [u8]) -> [u64; 3] {
    wrote(foldheron::convert(block, out))
}

pub fn read_text(text: &[u8], block: &mut [u8]) -> [u64; 3] {
    wrote(foldheron::read_text(text, block))
}

pub fn write_text(block: &[u8], text: &mut [u8]) -> [u64; 3] {
    wrote(foldheron::write_text(block, text))
}

// Number, place, and how many bytes were written.
fn wrote(answer: Result<usize, Refused>) -> [u64; 3] {
    match answer {
        Ok(size) => [0, 0, size as u64],
        Err(r) => refused(r),
    }
}
