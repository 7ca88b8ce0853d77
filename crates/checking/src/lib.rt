// What the programs of checks share: the numbers of the refusals written by hand, the lines that say whether what came was expected, and blocks made for the cases.
#![tactic(auto)]

pub mod lines;
pub mod pages;

use lines::Line;
use refusals::{Refused, Why};
use std::{fmt, io, iter};

// The numbers that document 01 gives, written once more: the programs of checks hold the product's own numbers to these.
pub fn number(w: Why) -> u64 {
    match w {
        Why::Broken => 1,
        Why::Kind => 2,
        Why::Edition => 3,
        Why::Limit => 4,
        Why::Signal => 5,
        Why::Exit => 6,
        Why::Shape => 7,
        Why::Loop => 8,
        Why::State => 9,
        Why::Clash => 10,
        Why::Input => 11,
        Why::Room => 12,
        Why::NotConstructive => 13,
        Why::Index => 14,
        Why::Text => 15,
        Why::Question => 16,
        Why::OtherBlock => 17,
        Why::Party => 18,
        Why::Shelf => 19,
        Why::Taken => 20,
        Why::Quota => 21,
        Why::Absent => 22,
        Why::Interface => 23,
        Why::Wide => 24,
        Why::Pairs => 25,
        Why::Form => 26,
    }
}

// What a call comes to: a refusal's number or 0, and a place. Where something else is looked at, a number and a size.
#[derive(Clone, Copy, Debug, PartialEq, Eq)]
pub struct Outcome(pub u64, pub usize);

impl From<Refused> for Outcome {
    fn from(refused: Refused) -> Outcome {
        Outcome(number(refused.why), refused.place)
    }
}

impl fmt::Display for Outcome {
    fn fmt<W: fmt::Write>(&self, f: &mut fmt::Formatter<W>) -> fmt::Result {
        let Outcome(number, place) = *self;
        write!(f, "{number} {place}")
    }
}

// A line: what came, and whether it was expected.
pub fn say(out: &impl Print, name: &[u8], came: Outcome, expected: Outcome) -> io::Result<()> {
    out.write_all(name)?;
    if came == expected {
        println!(out; "{came} as expected")
    } else {
        println!(out; "{came} NOT AS EXPECTED")
    }
}

// The byte with which what is lent is filled before.
const LENT: u8 = 165;

// Lends a call as many bytes as the line's fourth number says, and says whether it came to what was expected, and wrote these bytes and no other, past what is lent either. The
// call answers with its outcome, and with a number and how many bytes it wrote.
pub fn say_written<F: FnOnce(&mut [u8]) -> (Outcome, Outcome)>(
    out: &impl Print,
    line: Line<'_>,
    name: &[u8],
    expected: Outcome,
    bytes: &[u8],
    call: F,
) -> io::Result<()>
    requires { F.IsAlwaysCallable call }
{
    let mut room = [LENT; 4096];
    if let Some(lent) = room.get_mut(..line.number(3) as usize) {
        let (came, written) = call(lent);
        say(out, line.name, came, line.expected(1))?;
        say(out, name, written, expected)?;
    }
    let wanted = bytes.iter().chain(iter::repeat(&LENT));
    let differs = room.iter().zip(wanted).any(|(byte, other)| byte != other);
    say(
        out,
        b"  bytes otherwise ",
        Outcome(differs.into(), 0),
        Outcome(0, 0),
    )
}

// What `say_written` asks of a call: its outcome, and how many bytes it wrote.
pub fn wrote(answer: Result<usize, Refused>) -> (Outcome, Outcome) {
    match answer {
        Ok(count) => (Outcome(0, 0), Outcome(0, count)),
        Err(refused) => (refused.into(), Outcome(0, 0)),
    }
}

// The byte at a place, and 256 past the last.
pub fn byte(bytes: &[u8], i: usize) -> u64 {
    bytes.get(i).map_or(256, |byte| u64::from(*byte))
}

// Another byte at a place.
pub fn changed(bytes: &mut [u8], at: usize, other: u8) {
    if let Some(byte) = bytes.get_mut(at) {
        *byte = other;
    }
}
