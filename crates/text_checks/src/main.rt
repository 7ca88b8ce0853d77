// Checks the calls on blocks as text at the boundary of each refusal, with texts and answers worked by hand. Says of each case what came and whether it is what was expected.
//
// The cases stand in the file stdin. The line of a case is its name, a bar, and numbers: 15, a text read, or 16, a block written; the number and the place expected; and how many bytes
// are lent, which hold 165 before. The line after it is the block, made as checking::pages says; of a text that is refused it has no bytes. Then stands the text, up to the byte '#'.
// Bytes past what is expected have to stay, and past what is lent.
#![tactic(auto)]

use checking::lines::{Line, each_case, until};
use checking::pages::made;
use checking::{Outcome, say_written, wrote};
use std::io;

fn case<'a>(out: &impl Print, text: &'a [u8]) -> io::Result<&'a [u8]> {
    let (line, rest) = Line::split(text, 128);
    let mut page = [0u8; 4096];
    let (block, rest) = made(rest, &mut page);
    let (said, rest) = until(rest, b'#');
    match line.number(0) {
        15 => written(
            out,
            line,
            block,
            |lent| wrote(foldheron::read_text(said, lent)),
        )?,
        _ => written(
            out,
            line,
            said,
            |lent| wrote(foldheron::write_text(block, lent)),
        )?,
    }
    Ok(rest)
}

// A call that writes these bytes.
fn written<F: FnOnce(&mut [u8]) -> (Outcome, Outcome)>(
    out: &impl Print,
    line: Line<'_>,
    bytes: &[u8],
    call: F,
) -> io::Result<()>
    requires { F.IsAlwaysCallable call }
{
    let size = Outcome(0, bytes.len());
    say_written(out, line, b"  bytes written ", size, bytes, call)
}

fn main(rt: HostRuntime) -> io::Result<()> {
    let mut text = [0u8; 65536];
    let n = reading::read_full(&mut rt.stdin(), &mut text)?;
    each_case(&text[..n], |text| case(&rt, text))
}
