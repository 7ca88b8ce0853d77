// Calls that write into lent bytes. The numbers of a case after the place: how many bytes are lent, and of two blocks 1 where the refusal is of the second.
use checking::lines::Line;
use checking::{Outcome, say_written, wrote};
use foldheron::NotCompared;
use std::io;

pub(crate) fn compare(
    out: &impl Print,
    line: Line<'_>,
    first: &[u8],
    second: &[u8],
    bytes: &[u8],
) -> io::Result<()> {
    ask(
        out,
        line,
        bytes,
        |lent| compared(foldheron::alike(first, second, lent)),
    )
}

pub(crate) fn double(
    out: &impl Print,
    line: Line<'_>,
    block: &[u8],
    bytes: &[u8],
) -> io::Result<()> {
    ask(
        out,
        line,
        bytes,
        |lent| wrote(foldheron::double_loops(block, lent)),
    )
}

pub(crate) fn convert(
    out: &impl Print,
    line: Line<'_>,
    block: &[u8],
    bytes: &[u8],
) -> io::Result<()> {
    ask(
        out,
        line,
        bytes,
        |lent| wrote(foldheron::convert(block, lent)),
    )
}

fn ask<F: FnOnce(&mut [u8]) -> (Outcome, Outcome)>(
    out: &impl Print,
    line: Line<'_>,
    bytes: &[u8],
    call: F,
) -> io::Result<()>
    requires { F.IsAlwaysCallable call }
{
    let expected = Outcome(line.number(4).into(), bytes.len());
    say_written(
        out,
        line,
        b"  of the second, and bytes ",
        expected,
        bytes,
        call,
    )
}

// The outcome of two blocks, then 1 where it is the second's, and how many bytes the run has.
fn compared(answer: Result<Option<usize>, NotCompared>) -> (Outcome, Outcome) {
    match answer {
        Ok(size) => (Outcome(0, 0), Outcome(0, size.unwrap_or(0))),
        Err(NotCompared::First(refused)) => (refused.into(), Outcome(0, 0)),
        Err(NotCompared::Second(refused)) => (refused.into(), Outcome(1, 0)),
        Err(NotCompared::Both(why)) => (why.at(0).into(), Outcome(0, 0)),
    }
}
