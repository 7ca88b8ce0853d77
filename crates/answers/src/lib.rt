// The answers of the calls on no shelf as numbers, in the order of a line of the comparison: a refusal's number comes first, 0 where there is none, and then its
// place. What an answer does not have is 0.
#![tactic(auto)]

ghost use Rattle.std.specs.Prelude.{◌≤◌};

pub mod blocks;

use foldheron::{Asked, Logged, Reaction, Refused, Stopped, Unanswered, number_of};

// Number and place of a refusal, in front of what its call would answer.
pub(crate) fn refused<const N: usize>(r: Refused) -> [u64; N]
    requires { 2 ≤ N }
{
    let mut numbers = [0; N];
    numbers[0] = number_of(r.why).into();
    numbers[1] = r.place as u64;
    numbers
}

// Number, place, version, inputs, outputs, locals, statements, pauses.
pub fn check(block: &[u8]) -> [u64; 8] {
    match foldheron::check(block) {
        Ok(s) => [
            0,
            0,
            s.version.into(),
            s.inputs.into(),
            s.outputs.into(),
            s.locals.into(),
            s.statements as u64,
            s.pauses.into(),
        ],
        Err(r) => refused(r),
    }
}

// Number and place.
pub fn fresh(block: &[u8], state: &mut [u8]) -> [u64; 2] {
    match foldheron::fresh(block, state) {
        Ok(()) => [0, 0],
        Err(r) => refused(r),
    }
}

// Number, place, the pair of a clash, what is present and absent, how many are undecided, code, rounds, active pauses.
fn numbers(answer: Result<Reaction, Unanswered>) -> [u64; 10] {
    match answer {
        Ok(r) => [
            0,
            0,
            0,
            0,
            r.present,
            0,
            0,
            r.code.0.into(),
            r.rounds.into(),
            r.active.into(),
        ],
        Err(Unanswered::NotConstructive(d)) => [
            13,
            0,
            0,
            0,
            d.present,
            d.absent,
            d.undecided.into(),
            0,
            d.rounds.into(),
            0,
        ],
        Err(Unanswered::Clash(first, second)) => [
            10,
            0,
            first.into(),
            second.into(),
            0,
            0,
            0,
            0,
            0,
            0,
        ],
        Err(Unanswered::Refused(r)) => refused(r),
    }
}

pub fn instant(block: &[u8], state: &mut [u8], inputs: u64) -> [u64; 10] {
    numbers(foldheron::instant(block, state, inputs))
}

// The same for the inputs present and the inputs absent.
pub fn heard(block: &[u8], state: &mut [u8], present: u64, absent: u64) -> [u64; 10] {
    numbers(foldheron::instant_heard(block, state, present, absent))
}

// The same, and the log's new end: 0 where nothing was logged.
fn with_end(answer: Result<Logged, Unanswered>) -> ([u64; 10], u64) {
    match answer {
        Ok(logged) => (numbers(Ok(logged.reaction)), logged.end as u64),
        Err(unanswered) => (numbers(Err(unanswered)), 0),
    }
}

// The same as `instant`, and the log's new end.
pub fn logged(
    block: &[u8],
    state: &mut [u8],
    inputs: u64,
    log: &mut [u8],
    end: u64,
) -> ([u64; 10], u64) {
    with_end(foldheron::instant_logged(block, state, inputs, log, end as usize))
}

// The same as `heard`, and the log's new end.
pub fn heard_logged(
    block: &[u8],
    state: &mut [u8],
    present: u64,
    absent: u64,
    log: &mut [u8],
    end: u64,
) -> ([u64; 10], u64) {
    with_end(foldheron::instant_heard_logged(block, state, present, absent, log, end as usize))
}

// Number and place, and the part; a refusal hands none back.
pub fn excerpt(block: &[u8], n: u64) -> ([u64; 2], &[u8]) {
    match foldheron::excerpt(block, n as usize) {
        Ok(part) => ([0, 0], part),
        Err(r) => (refused(r), &block[..0]),
    }
}

// Number, place, the pair of a clash, the statement.
pub fn reason(
    block: &[u8],
    state: &[u8],
    present: u64,
    absent: u64,
    question: u64,
    about: u64,
) -> [u64; 5] {
    match foldheron::reason(block, state, present, absent, asked(question, about)) {
        Ok(n) => [0, 0, 0, 0, n as u64],
        Err(Stopped::Clash(first, second)) => [10, 0, first.into(), second.into(), 0],
        Err(Stopped::Refused(r)) => refused(r),
    }
}

// The questions by their numbers, and what they are about.
fn asked(question: u64, about: u64) -> Asked {
    match question {
        0 => Asked::Refused,
        1 => Asked::Present(about as usize),
        _ => Asked::NotExecuted(about as usize),
    }
}
