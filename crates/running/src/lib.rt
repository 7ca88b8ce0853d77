// The run of a block on sets of inputs, from two files, with a line an instant on an output.
//
// Memory is constant: a block's first 3,087 bytes, 512 input sets and the text of their lines.
//
// A file that is missing is empty. A file that is there and cannot be opened or read, a name that is not UTF-8, and output that cannot be written, end
// the run with an error that says which and why, and nothing more is written, no `short` either. The lines of the input sets
// that were read in full buffers before stay.
#![tactic(auto)]

ghost use Rattle.std.specs.Prelude.{◌≤◌, length, IfOk};

mod file;
mod inputs;
mod line;

use line::Run;
use lines::Text;
use refusals::{Refused, number_of};
use std::io;
use std::rt::Files;
use thiserror::Error;

// What could not be opened, read or written, and why.
#[derive(Debug, Drop, Error)]
pub enum Failure {
    #[error("the block: {0}")]
    Block(io::Error),
    #[error("the input sets: {0}")]
    Inputs(io::Error),
    #[error("the output: {0}")]
    Output(io::Error),
}

// Runs the block in one file on the input sets in the other, from fresh.
//
// A block has at most 3,086 bytes. One byte more is read: a longer file, whatever its size, is then refused for its size.
pub fn run(
    rt: &(impl Files + Print),
    block_file: &[u8],
    inputs_file: &[u8],
) -> Result<(), Failure> {
    let mut space = [0u8; 3087];
    let size = read_block(rt, block_file, &mut space).map_err(Failure::Block)?;
    run_block(rt, &space[..size], inputs_file)
}

// Puts the block into the space, as far as it has room, and answers how many bytes stand there.
fn read_block(files: &impl Files, block_file: &[u8], space: &mut [u8]) -> io::Result<usize>
    ensures { IfOk result (λ n. n ≤ length space.new) }
{
    match file::open(files, block_file)? {
        Some(mut file) => reading::read_full(&mut file, space),
        None => Ok(0),
    }
}

fn run_block(rt: &(impl Files + Print), block: &[u8], inputs_file: &[u8]) -> Result<(), Failure> {
    match Run::begin(block) {
        Ok(mut run) => run_inputs(rt, &mut run, inputs_file),
        Err(refused) => print_refused(rt, refused),
    }
}

fn print_refused(out: &impl Print, refused: Refused) -> Result<(), Failure> {
    let mut text = Text::<48>::new();
    text.put_block(number_of(refused.why), refused.place);
    out.write_all(text.as_bytes()).map_err(Failure::Output)
}

fn run_inputs(
    rt: &(impl Files + Print),
    run: &mut Run<'_>,
    inputs_file: &[u8],
) -> Result<(), Failure> {
    match file::open(rt, inputs_file).map_err(Failure::Inputs)? {
        Some(mut inputs) => inputs::run_all(rt, run, &mut inputs),
        None => Ok(()),
    }
}
