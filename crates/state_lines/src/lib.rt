// The lines of the calls on one block, with or without a state and a log.
#![tactic(auto)]

use printing::{put_answer, put_bytes, put_numbers};
use std::io;

pub fn check(out: &impl Print, block: &[u8]) -> io::Result<()> {
    put_answer(out, "check", &answers::check(block))
}

pub fn fresh(out: &impl Print, block: &[u8], state: &mut [u8]) -> io::Result<()> {
    let numbers = answers::fresh(block, state);
    put_answer(out, "fresh", &numbers)?;
    put_bytes(out, state)
}

pub fn instant(out: &impl Print, block: &[u8], state: &mut [u8], inputs: u64) -> io::Result<()> {
    let numbers = answers::instant(block, state, inputs);
    put_answer(out, "instant", &numbers)?;
    put_bytes(out, state)
}

pub fn heard(
    out: &impl Print,
    block: &[u8],
    state: &mut [u8],
    present: u64,
    absent: u64,
) -> io::Result<()> {
    let numbers = answers::heard(block, state, present, absent);
    put_answer(out, "heard", &numbers)?;
    put_bytes(out, state)
}

pub fn logged(
    out: &impl Print,
    block: &[u8],
    state: &mut [u8],
    inputs: u64,
    log: &mut [u8],
    end: u64,
) -> io::Result<()> {
    let (numbers, new_end) = answers::logged(block, state, inputs, log, end);
    put_answer(out, "logged", &numbers)?;
    put_end(out, new_end, state, log)
}

pub fn heard_logged(
    out: &impl Print,
    block: &[u8],
    state: &mut [u8],
    present: u64,
    absent: u64,
    log: &mut [u8],
    end: u64,
) -> io::Result<()> {
    let (numbers, new_end) = answers::heard_logged(block, state, present, absent, log, end);
    put_answer(out, "heardlogged", &numbers)?;
    put_end(out, new_end, state, log)
}

// The log's new end, and what was lent.
fn put_end(out: &impl Print, end: u64, state: &[u8], log: &[u8]) -> io::Result<()> {
    put_numbers(out, &[end])?;
    put_bytes(out, state)?;
    put_bytes(out, log)
}

pub fn excerpt(out: &impl Print, block: &[u8], n: u64) -> io::Result<()> {
    let (numbers, part) = answers::excerpt(block, n);
    put_answer(out, "excerpt", &numbers)?;
    put_bytes(out, part)
}

pub fn reason(
    out: &impl Print,
    block: &[u8],
    state: &[u8],
    present: u64,
    absent: u64,
    question: u64,
    about: u64,
) -> io::Result<()> {
    let numbers = answers::reason(block, state, present, absent, question, about);
    put_answer(out, "reason", &numbers)
}
