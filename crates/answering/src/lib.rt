// The public calls, each answered with a line on an output: the name of the call, every number of its answer, and every byte that was lent to be
// written, as it is after the call; of a part that comes back its bytes. reference/README.md says how the lines are written.
#![tactic(auto)]

use block_lines::{blocks, shelves};
use state_lines::{check, excerpt, fresh, heard, heard_logged, instant, logged, reason};
use std::io;

// A call and its numbers.
#[derive(Clone, Copy)]
pub enum Call {
    Check,
    Fresh,
    Instant(u64),
    // The inputs, and the log's end.
    Logged(u64, u64),
    // The statement.
    Excerpt(u64),
    // The inputs present, and the inputs absent.
    Heard(u64, u64),
    HeardLogged(u64, u64, u64),
    // The inputs present and absent, which question, and what it is about.
    Reason(u64, u64, u64, u64),
    // The party, and the name.
    Install(u64, u64),
    Fetch(u64, u64),
    Withdraw(u64, u64),
    Maze(u64),
    // How many bytes are lent for the output.
    Alike(usize),
    DoubleLoops(usize),
    ReadText(usize),
    WriteText(usize),
    Convert(usize),
}

// The bytes that are lent to a call, none of those that it does not take.
#[derive(Drop)]
pub struct Lent<'a> {
    pub block: &'a [u8],
    pub state: &'a mut [u8],
    pub log: &'a mut [u8],
    // A shelf, or the second block.
    pub beside: &'a mut [u8],
}

// Answers a call, or says that there is none.
pub fn answer(out: &impl Print, call: Option<Call>, lent: Lent<'_>) -> io::Result<()> {
    line(out, call, lent)?;
    println!(out)
}

fn line(out: &impl Print, call: Option<Call>, lent: Lent<'_>) -> io::Result<()> {
    let Some(call) = call else {
        return print!(out; "no such call");
    };
    let Lent {
        block,
        state,
        log,
        beside,
    } = lent;
    match call {
        Call::Check => check(out, block),
        Call::Fresh => fresh(out, block, state),
        Call::Instant(inputs) => instant(out, block, state, inputs),
        Call::Logged(inputs, end) => logged(out, block, state, inputs, log, end),
        Call::Excerpt(n) => excerpt(out, block, n),
        Call::Heard(present, absent) => heard(out, block, state, present, absent),
        Call::HeardLogged(present, absent, end) => {
            heard_logged(out, block, state, present, absent, log, end)
        }
        Call::Reason(present, absent, question, about) => {
            reason(out, block, state, present, absent, question, about)
        }
        Call::Install(party, name) => shelves::install(out, beside, party, name, block),
        Call::Fetch(party, name) => shelves::fetch(out, beside, party, name),
        Call::Withdraw(party, name) => shelves::withdraw(out, beside, party, name),
        Call::Maze(inputs) => blocks::maze(out, block, inputs),
        Call::Alike(room) => blocks::alike(out, block, beside, room),
        Call::DoubleLoops(room) => blocks::copies(out, block, room),
        Call::ReadText(room) => blocks::read_text(out, block, room),
        Call::WriteText(room) => blocks::write_text(out, block, room),
        Call::Convert(room) => blocks::convert(out, block, room),
    }
}
