// Checks the call that says why at the boundary of each refusal, with the numbers of the request written by hand, and says of each case what came and whether it is
// what was expected: a number and its place, or 0 and the statement.
#![tactic(auto)]

use checking::pages::{state_of, tested};
use checking::{Outcome, say};
use foldheron::{Asked, Stopped};
use std::io;

// The refusals that come more than once.
const INPUT: Outcome = Outcome(11, 0);

const QUESTION: Outcome = Outcome(16, 0);

// A good answer's place is the statement.
fn told(answer: Result<usize, Stopped>) -> Outcome {
    match answer {
        Ok(n) => Outcome(0, n),
        Err(Stopped::Clash(..)) => Outcome(10, 0),
        Err(Stopped::Refused(refused)) => refused.into(),
    }
}

// A question about the first instant of present 0 then emit 1 else nothing.
fn on_fresh(
    out: &impl Print,
    name: &[u8],
    present: u64,
    absent: u64,
    asked: Asked,
    expected: Outcome,
) -> io::Result<()> {
    let good = tested();
    let state = state_of(5, 3, 0, 0);
    let came = told(foldheron::reason(&good, &state, present, absent, asked));
    say(out, name, came, expected)
}

// On a state as it is.
fn on_state(
    out: &impl Print,
    name: &[u8],
    block: &[u8],
    state: &[u8],
    expected: u64,
) -> io::Result<()> {
    let came = told(foldheron::reason(block, state, 1, 1, Asked::Refused));
    say(out, name, came, Outcome(expected, 0))
}

// BROKEN, STATE and OTHER BLOCK, each before INPUT, which comes here too.
fn before_the_inputs(out: &impl Print) -> io::Result<()> {
    let good = tested();
    let state = state_of(5, 3, 0, 0);
    on_state(out, b"a bad block ", b"\x0e", &state, 1)?;
    on_state(
        out,
        b"an old record of 22 bytes ",
        &good,
        b"\x16\x00\x02\x00\x00\x00\x00\x00\x00\x00\x00\x00\x00\x00\x00\x00\x00\x00\x00\x00\x00\x00",
        9,
    )?;
    let other = state_of(6, 3, 0, 0);
    on_state(out, b"another version ", &good, &other, 17)?;
    on_state(out, b"an input in both sets ", &good, &state, 11)
}

// CLASH with its pair, before INPUT: both pauses of pause; pause.
fn clash(out: &impl Print) -> io::Result<()> {
    let state = state_of(5, 3, 1, 3);
    let block =
        b"\x0e\x00\x01\x00\x01\x00\x05\x00\x00\x00\x00\x00\x00\x00\x04\x00\x15\x00\x04\x00\x11\x00\x04\x00\x11\x00";
    let answer = foldheron::reason(block, &state, 1, 1, Asked::Refused);
    say(
        out,
        b"two pauses of a sequence ",
        told(answer),
        Outcome(10, 0),
    )?;
    match answer {
        Err(Stopped::Clash(first, second)) => {
            let pair = Outcome(first.into(), second.into());
            say(out, b"  its pair ", pair, Outcome(0, 1))
        }
        _ => Ok(()),
    }
}

// INPUT, before QUESTION.
fn inputs(out: &impl Print) -> io::Result<()> {
    on_fresh(out, b"no such input present ", 2, 0, Asked::Refused, INPUT)?;
    on_fresh(
        out,
        b"no such input absent ",
        0,
        2,
        Asked::Present(9),
        INPUT,
    )
}

// With the input present the instant is answered, and with it not heard refused with 13.
fn refused(out: &impl Print) -> io::Result<()> {
    on_fresh(
        out,
        b"why refused, of one that is ",
        0,
        0,
        Asked::Refused,
        Outcome(0, 0),
    )?;
    on_fresh(
        out,
        b"why refused, of one that is answered ",
        1,
        0,
        Asked::Refused,
        QUESTION,
    )
}

fn present(out: &impl Print) -> io::Result<()> {
    on_fresh(
        out,
        b"why output 1 is present ",
        1,
        0,
        Asked::Present(1),
        Outcome(0, 1),
    )?;
    on_fresh(out, b"  an input ", 1, 0, Asked::Present(0), QUESTION)?;
    on_fresh(out, b"  no signal ", 1, 0, Asked::Present(2), QUESTION)?;
    on_fresh(
        out,
        b"  an output that is absent ",
        0,
        1,
        Asked::Present(1),
        QUESTION,
    )?;
    on_fresh(
        out,
        b"  of an instant refused with 13 ",
        0,
        0,
        Asked::Present(1),
        QUESTION,
    )
}

// A local: local 0 (emit 0).
fn of_a_local(out: &impl Print) -> io::Result<()> {
    let state = state_of(5, 2, 0, 0);
    let block =
        b"\x0e\x00\x01\x00\x01\x00\x05\x00\x00\x00\x00\x00\x01\x00\x06\x00\x1a\x00\x00\x00\x06\x00\x12\x00\x00\x00";
    let came = told(foldheron::reason(block, &state, 0, 0, Asked::Present(0)));
    say(out, b"  a local ", came, QUESTION)
}

fn not_executed(out: &impl Print) -> io::Result<()> {
    on_fresh(
        out,
        b"why emit 1 was not executed ",
        0,
        1,
        Asked::NotExecuted(1),
        Outcome(0, 1),
    )?;
    on_fresh(out, b"  no emit ", 0, 1, Asked::NotExecuted(2), QUESTION)?;
    on_fresh(
        out,
        b"  no statement ",
        0,
        1,
        Asked::NotExecuted(3),
        QUESTION,
    )?;
    on_fresh(
        out,
        b"  one that was executed ",
        1,
        0,
        Asked::NotExecuted(1),
        QUESTION,
    )?;
    on_fresh(
        out,
        b"  of an instant refused with 13 ",
        0,
        0,
        Asked::NotExecuted(1),
        QUESTION,
    )
}

fn main(rt: HostRuntime) -> io::Result<()> {
    before_the_inputs(&rt)?;
    clash(&rt)?;
    inputs(&rt)?;
    refused(&rt)?;
    present(&rt)?;
    of_a_local(&rt)?;
    not_executed(&rt)
}
