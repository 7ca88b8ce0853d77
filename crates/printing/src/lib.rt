// The text of a line, written to an output as it comes. A write that fails ends it, and its error is answered.
#![tactic(auto)]

ghost use Rattle.std.specs.Prelude.{◌<◌};

use std::io;

// A digit below 16.
fn digit(d: u8) -> u8
    requires { d < 16 }
{
    if d < 10 { b'0' + d } else { b'a' + (d - 10) }
}

// Bytes, two digits each, 4,096 digits at a time.
fn put_digits(out: &impl Print, bytes: &[u8]) -> io::Result<()> {
    let mut pairs = [[0u8; 2]; 2048];
    for part in bytes.chunks(2048) {
        for (pair, byte) in pairs.iter_mut().zip(part) {
            *pair = [digit(byte / 16), digit(byte % 16)];
        }
        out.write_all(pairs[..part.len().min(2048)].as_flattened())?;
    }
    Ok(())
}

// The name of a call and the numbers of its answer.
pub fn put_answer(out: &impl Print, name: &str, numbers: &[u64]) -> io::Result<()> {
    print!(out; "{name}")?;
    put_numbers(out, numbers)
}

// Each number in hex, after a space.
pub fn put_numbers(out: &impl Print, numbers: &[u64]) -> io::Result<()> {
    for n in numbers {
        print!(out; " {n:x}")?;
    }
    Ok(())
}

// Bytes after a space; a dash for none.
pub fn put_bytes(out: &impl Print, bytes: &[u8]) -> io::Result<()> {
    if bytes.is_empty() {
        return print!(out; " -");
    }
    print!(out; " ")?;
    put_digits(out, bytes)
}

// Bytes up to the last that is not the rest's, and how many of the rest come after it.
pub fn put_until(out: &impl Print, bytes: &[u8], rest: u8) -> io::Result<()> {
    let stands = bytes
        .iter()
        .rposition(|byte| *byte != rest)
        .map_or(0, |last| last + 1);
    put_bytes(out, &bytes[..stands])?;
    print!(out; "+{:x}", bytes.len() - stands)
}
