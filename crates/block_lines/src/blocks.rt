// The calls that take blocks alone, with no state.
use answers::blocks;
use printing::{put_answer, put_until};
use std::io;

// What is lent for an output holds this byte, with which none ends.
const LENT: u8 = 165;

pub fn maze(out: &impl Print, block: &[u8], inputs: u64) -> io::Result<()> {
    put_answer(out, "maze", &blocks::maze(block, inputs))
}

// The line of a call that writes an output, into so many bytes; it stays empty where these are more than there are.
fn written<F: FnOnce(&mut [u8]) -> io::Result<()>>(
    out: &impl Print,
    size: usize,
    line: F,
) -> io::Result<()>
    requires { F.IsAlwaysCallable line }
{
    let mut room = [LENT; 65536];
    let Some(lent) = room.get_mut(..size) else {
        return Ok(());
    };
    line(lent)?;
    put_until(out, lent, LENT)
}

pub fn alike(out: &impl Print, first: &[u8], second: &[u8], size: usize) -> io::Result<()> {
    written(
        out,
        size,
        |run| put_answer(out, "alike", &blocks::alike(first, second, run)),
    )
}

pub fn copies(out: &impl Print, block: &[u8], size: usize) -> io::Result<()> {
    written(
        out,
        size,
        |lent| put_answer(out, "copies", &blocks::copies(block, lent)),
    )
}

pub fn convert(out: &impl Print, block: &[u8], size: usize) -> io::Result<()> {
    written(
        out,
        size,
        |lent| put_answer(out, "convert", &blocks::convert(block, lent)),
    )
}

pub fn read_text(out: &impl Print, text: &[u8], size: usize) -> io::Result<()> {
    written(
        out,
        size,
        |block| put_answer(out, "readtext", &blocks::read_text(text, block)),
    )
}

pub fn write_text(out: &impl Print, block: &[u8], size: usize) -> io::Result<()> {
    written(
        out,
        size,
        |text| put_answer(out, "writetext", &blocks::write_text(block, text)),
    )
}
