// Answers the cases of a file, each with a line on an output. reference/README.md says how cases and lines are written.
//
// Memory is constant: one case is held at a time, with a block and a shelf or second block of at most 131,072 bytes each, a state of at most 64 and a log of at
// most 512. A file that ends within a case, or holds a longer one, gets the line `cut`, and nothing after that is read. A file that cannot be opened or read, as one whose
// name is not UTF-8, and output that cannot be written, end the answers with an error that says which and why.
#![tactic(auto)]

mod head;

use answering::{Call, Lent};
use head::Head;
use std::io;
use std::io::Read;
use std::rt::Files;
use thiserror::Error;

// What could not be opened, read or written, and why.
#[derive(Debug, Drop, Error)]
pub enum Failure {
    #[error("the cases: {0}")]
    Cases(io::Error),
    #[error("the output: {0}")]
    Output(io::Error),
}

// What ends the answers before the end of the file.
#[derive(Drop)]
pub(crate) enum Stop {
    // A case is cut short, or too long for this program.
    Cut,
    Failed(Failure),
}

impl From<Failure> for Stop {
    fn from(failure: Failure) -> Stop {
        Stop::Failed(failure)
    }
}

// Answers every case of a file.
pub fn answer(rt: &(impl Files + Print), path: &[u8]) -> Result<(), Failure> {
    let mut cases = reading::open(rt, path).map_err(Failure::Cases)?;
    match answer_all(rt, &mut cases) {
        Ok(()) => Ok(()),
        Err(Stop::Cut) => println!(rt; "cut").map_err(Failure::Output),
        Err(Stop::Failed(failure)) => Err(failure),
    }
}

// A proved loop has to end, and nothing says that a file does: the cases are counted up to a number that no file reaches.
fn answer_all(out: &impl Print, cases: &mut impl Read) -> Result<(), Stop> {
    // The reference's cases have some blocks of more than 65,536 bytes.
    let mut room = [0u8; 131072];
    for _ in 0..u64::MAX {
        let Some(head) = head::read(cases)? else {
            break;
        };
        let block = front(&mut room, head.block)?;
        fill(cases, block)?;
        answer_case(out, cases, head, block)?;
    }
    Ok(())
}

// So many bytes of the room that there is.
fn front(room: &mut [u8], size: usize) -> Result<&mut [u8], Stop> {
    room.get_mut(..size).ok_or(Stop::Cut)
}

// Reads as much as the bytes have room for.
fn fill(cases: &mut impl Read, bytes: &mut [u8]) -> Result<(), Stop> {
    let count = reading::read_full(cases, bytes).map_err(Failure::Cases)?;
    if count < bytes.len() {
        return Err(Stop::Cut);
    }
    Ok(())
}

// Reads what stands behind the block, and answers the case.
fn answer_case(
    out: &impl Print,
    cases: &mut impl Read,
    head: Head,
    block: &[u8],
) -> Result<(), Stop> {
    match head.call {
        Some(Call::Install(..) | Call::Fetch(..) | Call::Withdraw(..) | Call::Alike(_)) =>
            answer_beside(out, cases, head, block),
        _ => answer_alone(out, cases, head, block),
    }
}

// With a state and a log.
fn answer_alone(
    out: &impl Print,
    cases: &mut impl Read,
    head: Head,
    block: &[u8],
) -> Result<(), Stop> {
    let mut state_room = [0u8; 64];
    let mut log_room = [0u8; 512];
    let state = front(&mut state_room, head.state)?;
    let log = front(&mut log_room, head.log)?;
    fill(cases, state)?;
    fill(cases, log)?;
    let beside = &mut [];
    let lent = Lent {
        block,
        state,
        log,
        beside,
    };
    answering::answer(out, head.call, lent).map_err(Failure::Output)?;
    Ok(())
}

// With a shelf or a second block. Of a shelf the zeros at its end do not stand in the file.
fn answer_beside(
    out: &impl Print,
    cases: &mut impl Read,
    head: Head,
    block: &[u8],
) -> Result<(), Stop> {
    let mut room = [0u8; 131072];
    let beside = front(&mut room, head.beside)?;
    let stands = front(beside, head.stands)?;
    fill(cases, stands)?;
    let state = &mut [];
    let log = &mut [];
    let lent = Lent {
        block,
        state,
        log,
        beside,
    };
    answering::answer(out, head.call, lent).map_err(Failure::Output)?;
    Ok(())
}
