// Checks the calls that take blocks alone, at the boundary of each refusal, with answers worked by hand: the maze of a first instant and its corridors, two blocks
// compared, loop bodies doubled, and edition 2 converted. Says of each case what came and whether it is what was expected.
//
// The cases stand in the file stdin. The line of a case is its name, a bar, and numbers: 12 a maze, 13 two blocks, 14 a block doubled, 15 a corridor, 17 a block converted; the number and the place
// expected; and what the call's own file here says. The lines after it are its first block, of 13 the second, and of 13, 14 and 17 the bytes expected in what is lent, each made
// as checking::pages says.
#![tactic(auto)]

mod corridors;
mod rooms;
mod written;

use checking::lines::{Line, each_case};
use checking::pages::made;
use std::io;

fn case<'a>(out: &impl Print, text: &'a [u8]) -> io::Result<&'a [u8]> {
    let (line, rest) = Line::split(text, 128);
    let mut page = [0u8; 4096];
    let (block, rest) = made(rest, &mut page);
    match line.number(0) {
        12 => rooms::ask(out, line, block)?,
        15 => corridors::ask(out, line, block)?,
        13 => {
            let mut second_page = [0u8; 4096];
            let (second, rest) = made(rest, &mut second_page);
            let mut bytes_page = [0u8; 4096];
            let (bytes, rest) = made(rest, &mut bytes_page);
            written::compare(out, line, block, second, bytes)?;
            return Ok(rest);
        }
        what => {
            let mut bytes_page = [0u8; 4096];
            let (bytes, rest) = made(rest, &mut bytes_page);
            match what {
                14 => written::double(out, line, block, bytes)?,
                _ => written::convert(out, line, block, bytes)?,
            }
            return Ok(rest);
        }
    }
    Ok(rest)
}

fn main(rt: HostRuntime) -> io::Result<()> {
    let mut text = [0u8; 65536];
    let n = reading::read_full(&mut rt.stdin(), &mut text)?;
    each_case(&text[..n], |text| case(&rt, text))
}
