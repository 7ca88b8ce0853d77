// Input sets, a buffer of them at a time.
ghost use Rattle.std.specs.Prelude.{◌≡◌, ◌≤◌, length};

use crate::Failure;
use crate::line::Run;
use lines::Text;
use std::io::Read;

// A proved loop has to end, and nothing says that a file does: the buffers are counted up to 2^54. At 512 sets each
// that is a cap of 2^63 instants, beyond any run, and the numbers of the lines fit.
const BUFFERS: u64 = 0x40_0000_0000_0000;

// Runs all the sets of a file.
pub fn run_all(out: &impl Print, run: &mut Run<'_>, inputs: &mut impl Read) -> Result<(), Failure> {
    for buffer in 0..BUFFERS {
        if !run_some(out, run, inputs, buffer * 512)? {
            break;
        }
    }
    Ok(())
}

// Reads up to 512 sets, after `ran` that were run, runs them and writes their lines. Answers whether to go on.
fn run_some(
    out: &impl Print,
    run: &mut Run<'_>,
    inputs: &mut impl Read,
    ran: u64,
) -> Result<bool, Failure>
    requires { ran ≤ 9223372036854775808 }
{
    let mut space = [0u8; 4096];
    let n = reading::read_full(inputs, &mut space).map_err(Failure::Inputs)?;
    let mut text = Text::new();
    put_lines(&mut text, run, &space[..n], ran);
    out.write_all(text.as_bytes()).map_err(Failure::Output)?;
    Ok(n == 4096)
}

// Runs the sets, at most 512, and puts their lines, and `short` where 1 to 7 bytes are left, into an empty text, where it lies: as an answer it would be copied.
fn put_lines(text: &mut Text<65536>, run: &mut Run<'_>, sets: &[u8], ran: u64)
    requires empty { text.old ≡ 0 }
    requires sets_len_bound { length sets.now ≤ 4096 }
    requires ran_bound { ran ≤ 9223372036854775808 }
{
    for (i, set) in sets.chunks(8).enumerate() {
        match set.first_chunk() {
            Some(set) => text.put_line(&run.react(ran + i as u64 + 1, u64::from_le_bytes(*set))),
            None => text.put_short(),
        }
    }
}
