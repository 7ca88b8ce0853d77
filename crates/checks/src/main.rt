// Checks blocks, fresh states, states of other blocks, inputs, logs and excerpts at the boundaries of each refusal, with the numbers written by hand, and says of each
// case what came and whether it is what was expected. The blocks stand in the file stdin, a line for each: the name of the case, a
// bar, the number and the place expected, and how the block is made (see checking::pages, Line::block).
#![tactic(auto)]

use checking::lines::{Line, each_case};
use checking::pages::{state_of, tested};
use checking::{Outcome, byte, changed, say};
use foldheron::{Refused, Unanswered};
use std::io;

const GOOD: Outcome = Outcome(0, 0);

// Good, whatever is told of it, or the refusal.
fn outcome<T: Copy>(answer: Result<T, Refused>) -> Outcome {
    answer.map_or_else(Outcome::from, |_| GOOD)
}

// The check of a block.
fn checked(block: &[u8]) -> Outcome {
    outcome(foldheron::check(block))
}

// A fresh state.
fn begun(block: &[u8], state: &mut [u8]) -> Outcome {
    outcome(foldheron::fresh(block, state))
}

// The number of an instant.
fn told<T: Copy>(answer: Result<T, Unanswered>) -> Outcome {
    match answer {
        Ok(_) => GOOD,
        Err(Unanswered::NotConstructive(_)) => Outcome(13, 0),
        Err(Unanswered::Clash(..)) => Outcome(10, 0),
        Err(Unanswered::Refused(refused)) => refused.into(),
    }
}

// The check of a case: its name, and its numbers after the bar: number and place expected, the form of the block, and what it is made of.
fn case<'a>(out: &impl Print, text: &'a [u8]) -> io::Result<&'a [u8]> {
    let (line, rest) = Line::split(text, 1200);
    let mut page = [0u8; 4096];
    let came = checked(line.block(&mut page));
    say(out, line.name, came, line.expected(0))?;
    Ok(rest)
}

// A block of one nothing, of version 5.
fn nothing() -> [u8; 18] {
    [14, 0, 1, 0, 1, 0, 5, 0, 0, 0, 0, 0, 0, 0, 4, 0, 16, 0]
}

fn turned_down(out: &impl Print, good: &[u8], state: &mut [u8; 27]) -> io::Result<()> {
    let short = begun(good, &mut state[..22]);
    say(out, b"fresh into 22 bytes ", short, Outcome(9, 0))?;
    let shorter = begun(good, &mut state[..25]);
    say(out, b"fresh into 25 bytes ", shorter, Outcome(9, 0))?;
    let longer = begun(good, &mut state[..27]);
    say(out, b"fresh into 27 bytes ", longer, Outcome(9, 0))?;
    let bad = begun(b"\x0e", &mut state[..26]);
    say(out, b"fresh of a bad block ", bad, Outcome(1, 0))?;
    say_byte(out, b"first byte kept ", state, 0, 7)
}

fn written(out: &impl Print, good: &[u8], state: &mut [u8; 27]) -> io::Result<()> {
    let fresh = begun(good, &mut state[..26]);
    say(out, b"fresh into 26 bytes ", fresh, GOOD)?;
    say_byte(out, b"first byte ", state, 0, 26)?;
    say_byte(out, b"third byte ", state, 2, 2)?;
    say_byte(out, b"twenty-sixth byte ", state, 25, 0)?;
    say_byte(out, b"byte after it ", state, 26, 7)
}

// A fresh state names its block.
fn names(out: &impl Print, state: &[u8]) -> io::Result<()> {
    say_byte(out, b"its version ", state, 4, 5)?;
    say_byte(out, b"its statements ", state, 6, 1)
}

fn say_byte(
    out: &impl Print,
    name: &[u8],
    bytes: &[u8],
    i: usize,
    expected: u64,
) -> io::Result<()> {
    say(out, name, Outcome(byte(bytes, i), 0), Outcome(expected, 0))
}

fn fresh_states(out: &impl Print) -> io::Result<()> {
    let good = nothing();
    let mut state = [7u8; 27];
    turned_down(out, &good, &mut state)?;
    written(out, &good, &mut state)?;
    names(out, &state)
}

// A fresh state of a good block.
fn fresh(out: &impl Print, good: &[u8]) -> io::Result<[u8; 26]> {
    let mut state = [0u8; 26];
    let came = begun(good, &mut state);
    say(out, b"fresh ", came, GOOD)?;
    Ok(state)
}

// An instant on a fresh state of which one byte is another.
fn on_state(out: &impl Print, name: &[u8], at: usize, other: u8, expected: u64) -> io::Result<()> {
    let good = nothing();
    let mut state = fresh(out, &good)?;
    changed(&mut state, at, other);
    on_bytes(out, name, &good, &mut state, expected)
}

// OTHER BLOCK comes after STATE; the right names go through.
fn named_states(out: &impl Print) -> io::Result<()> {
    on_state(out, b"the block's own state ", 4, 5, 0)?;
    on_state(out, b"another version ", 4, 6, 17)?;
    on_state(out, b"another version by its second byte ", 5, 1, 17)?;
    on_state(out, b"another statement count ", 6, 2, 17)?;
    on_state(out, b"a bit at or above the pause count ", 10, 1, 9)?;
    on_state(out, b"another phase ", 8, 3, 9)
}

// An instant on the bytes of a state as they are.
fn on_bytes(
    out: &impl Print,
    name: &[u8],
    good: &[u8],
    state: &mut [u8],
    expected: u64,
) -> io::Result<()> {
    let came = told(foldheron::instant(good, state, 0));
    say(out, name, came, Outcome(expected, 0))
}

// All of STATE comes before OTHER BLOCK, and that before CLASH. The second block is pause; pause.
fn other_states(out: &impl Print) -> io::Result<()> {
    let good = nothing();
    let old =
        b"\x16\x00\x02\x00\x00\x00\x00\x00\x00\x00\x00\x00\x00\x00\x00\x00\x00\x00\x00\x00\x00\x00";
    let mut short = *old;
    on_bytes(out, b"an old record of 22 bytes ", &good, &mut short, 9)?;
    let mut both = state_of(6, 2, 0, 0);
    on_bytes(
        out,
        b"another version and another count ",
        &good,
        &mut both,
        17,
    )?;
    let mut beyond = state_of(6, 1, 1, 1);
    on_bytes(
        out,
        b"another version, and a bit at or above the pause count ",
        &good,
        &mut beyond,
        9,
    )?;
    let two =
        b"\x0e\x00\x01\x00\x01\x00\x05\x00\x00\x00\x00\x00\x00\x00\x04\x00\x15\x00\x04\x00\x11\x00\x04\x00\x11\x00";
    let mut clash = state_of(5, 3, 1, 3);
    on_bytes(out, b"two pauses of a sequence ", two, &mut clash, 10)?;
    let mut other = state_of(6, 3, 1, 3);
    on_bytes(
        out,
        b"two pauses of a sequence, and another version ",
        two,
        &mut other,
        17,
    )
}

// An instant from a fresh state with the inputs present and the inputs absent.
fn on_inputs(
    out: &impl Print,
    name: &[u8],
    present: u64,
    absent: u64,
    expected: u64,
) -> io::Result<()> {
    let good = tested();
    let mut state = fresh(out, &good)?;
    let came = told(foldheron::instant_heard(&good, &mut state, present, absent));
    say(out, name, came, Outcome(expected, 0))
}

// INPUT of two sets; with the input not heard the code is not known.
fn heard_inputs(out: &impl Print) -> io::Result<()> {
    on_inputs(out, b"the input present ", 1, 0, 0)?;
    on_inputs(out, b"the input absent ", 0, 1, 0)?;
    on_inputs(out, b"the input not heard ", 0, 0, 13)?;
    on_inputs(out, b"the input in both sets ", 1, 1, 11)?;
    on_inputs(out, b"no such input present ", 2, 0, 11)?;
    on_inputs(out, b"no such input absent ", 0, 2, 11)
}

// An instant with so many bytes of log after the end.
fn on_log(out: &impl Print, name: &[u8], log: &mut [u8], expected: u64) -> io::Result<()> {
    let good = tested();
    let mut state = fresh(out, &good)?;
    let logged = foldheron::instant_logged(&good, &mut state, 1, log, 8);
    say(out, name, told(logged), Outcome(expected, 0))
}

// ROOM is counted against a record of 32 bytes.
fn rooms(out: &impl Print) -> io::Result<()> {
    let mut short = [0u8; 39];
    on_log(out, b"31 bytes after the end ", &mut short, 12)?;
    let mut enough = [0u8; 40];
    on_log(out, b"32 bytes after the end ", &mut enough, 0)
}

// The excerpt of a statement of a block: the first byte of its kind and its length, then number and place.
fn part_of(
    out: &impl Print,
    name: &[u8],
    bytes: &[u8],
    n: usize,
    number: u64,
    expected: Outcome,
) -> io::Result<()> {
    let (came, cut) = match foldheron::excerpt(bytes, n) {
        Ok(part) => (GOOD, part),
        Err(refused) => (refused.into(), &bytes[..0]),
    };
    say(out, name, Outcome(byte(cut, 2), cut.len()), expected)?;
    say(out, b"  its number ", came, Outcome(number, 0))
}

fn excerpts(out: &impl Print) -> io::Result<()> {
    let run =
        b"\x0e\x00\x01\x00\x01\x00\x07\x00\x01\x00\x01\x00\x00\x00\x06\x00\x14\x00\x00\x00\x04\x00\x15\x00\x04\x00\x11\x00\x06\x00\x12\x00\x01\x00";
    part_of(out, b"excerpt 0 ", run, 0, 0, Outcome(20, 20))?;
    part_of(out, b"excerpt 1 ", run, 1, 0, Outcome(21, 14))?;
    part_of(out, b"excerpt 2 ", run, 2, 0, Outcome(17, 4))?;
    part_of(out, b"excerpt 3 ", run, 3, 0, Outcome(18, 6))?;
    part_of(out, b"excerpt 4 ", run, 4, 14, Outcome(256, 0))?;
    part_of(
        out,
        b"excerpt of a bad block ",
        b"\x0e",
        4,
        1,
        Outcome(256, 0),
    )
}

fn main(rt: HostRuntime) -> io::Result<()> {
    let mut text = [0u8; 65536];
    let n = reading::read_full(&mut rt.stdin(), &mut text)?;
    each_case(&text[..n], |text| case(&rt, text))?;
    fresh_states(&rt)?;
    named_states(&rt)?;
    other_states(&rt)?;
    heard_inputs(&rt)?;
    rooms(&rt)?;
    excerpts(&rt)
}
