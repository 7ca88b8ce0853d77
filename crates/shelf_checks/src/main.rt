// Checks the calls on a shelf at the boundary of each refusal, with the numbers of the request written by hand, and says of each case what came and whether it is what
// was expected. The cases stand in the file stdin, one after the other on one shelf of 65,536 bytes. A line is a name, a bar, and numbers. The first is what is done: 9 install,
// 10 fetch, 11 withdraw, 1 a byte made another, 2 a byte looked at, 3 installs under the names from 0 on. Then come the number expected, or the byte, or how many installs go; the place
// expected, or the size of what is fetched; and the party and the name, or the byte's place, or how many names. After 9 and 3 comes a line with the block.
#![tactic(auto)]

use checking::lines::{Line, each_case};
use checking::pages::{made, tested};
use checking::{Outcome, byte, changed, say};
use foldheron::Refused;
use std::io;

// An answer without a part.
fn told(answer: Result<(), Refused>) -> Outcome {
    answer.map_or_else(Outcome::from, |()| Outcome(0, 0))
}

// The number of a fetch and the size of its part; then the place.
fn fetched(
    out: &impl Print,
    said: &[u8],
    shelf: &[u8],
    party: u16,
    name: u16,
    expected: Outcome,
) -> io::Result<()> {
    let (Outcome(came, place), cut) = match foldheron::fetch(shelf, party, name) {
        Ok(part) => (Outcome(0, 0), part),
        Err(refused) => (refused.into(), &shelf[..0]),
    };
    say(out, said, Outcome(came, cut.len()), expected)?;
    say(out, b"  its place ", Outcome(0, place), Outcome(0, 0))
}

// Installs a block under the names from 0 on, so many, and gives back how many went in.
fn filled(shelf: &mut [u8], block: &[u8], count: u16) -> u16 {
    for name in 0..count {
        if foldheron::install(shelf, 0, name, block).is_err() {
            return name;
        }
    }
    count
}

// A case takes a line, and after 9 and 3 the line of a block.
fn case<'a>(out: &impl Print, text: &'a [u8], shelf: &mut [u8]) -> io::Result<&'a [u8]> {
    let (line, rest) = Line::split(text, 16);
    if !matches!(line.number(0), 3 | 9) {
        other(out, line, shelf)?;
        return Ok(rest);
    }
    let mut page = [0u8; 512];
    let (block, rest) = made(rest, &mut page);
    say(
        out,
        line.name,
        installed(line, shelf, block),
        line.expected(1),
    )?;
    Ok(rest)
}

// Of many installs how many went in and the size of the block.
fn installed(line: Line<'_>, shelf: &mut [u8], block: &[u8]) -> Outcome {
    match line.number(0) {
        3 => Outcome(filled(shelf, block, line.number(3)).into(), block.len()),
        _ => told(foldheron::install(shelf, line.number(3), line.number(4), block)),
    }
}

fn other(out: &impl Print, line: Line<'_>, shelf: &mut [u8]) -> io::Result<()> {
    let expected = line.expected(1);
    let (party, name) = (line.number(3), line.number(4));
    let at = line.number(3).into();
    match line.number(0) {
        1 => {
            changed(shelf, at, (line.number(1) & 0xff) as u8);
            Ok(())
        }
        2 => say(out, line.name, Outcome(byte(shelf, at), 0), expected),
        10 => fetched(out, line.name, shelf, party, name, expected),
        _ => {
            let came = told(foldheron::withdraw(shelf, party, name));
            say(out, line.name, came, expected)
        }
    }
}

// Another number of bytes than 65,536.
fn sizes(out: &impl Print, shelf: &[u8; 65536]) -> io::Result<()> {
    let refused = Outcome(19, 0);
    let short = &shelf[..65535];
    fetched(out, b"a shelf of 65,535 bytes ", short, 0, 7, refused)?;
    fetched(out, b"fetch from no byte ", b"", 0, 7, refused)?;
    let mut longer = [0u8; 65537];
    let came = told(foldheron::install(&mut longer, 0, 7, &tested()));
    say(out, b"a shelf of 65,537 bytes ", came, refused)
}

fn main(rt: HostRuntime) -> io::Result<()> {
    let mut text = [0u8; 65536];
    let n = reading::read_full(&mut rt.stdin(), &mut text)?;
    let mut shelf = [0u8; 65536];
    sizes(&rt, &shelf)?;
    each_case(&text[..n], |text| case(&rt, text, &mut shelf))
}
