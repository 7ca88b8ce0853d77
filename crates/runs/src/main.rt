// Runs each folder of a list, one name to a line in the file `folders`: a heading, and then what the run prints. A folder, or
// one of its two files, may be missing. Where a run fails, standard error says where and why, the others go on, and the status is 1.
#![tactic(auto)]

ghost use Rattle.std.specs.Prelude.{◌≤◌, length, IfOk};

use anyhow::{Context, Result, ensure};
use running::Failure;
use std::rt::Files;
use std::{fs, io};

fn main(rt: HostRuntime) -> Result<()> {
    let mut list = [0u8; 4096];
    let n = read_list(&rt, &mut list).context("folders")?;
    let failed = run_folders(&rt, &list[..n])?;
    ensure!(failed == 0, "runs that failed: {failed}");
    Ok(())
}

// Puts the list into the buffer, as far as it has room, and answers how many bytes stand there.
fn read_list(files: &impl Files, list: &mut [u8]) -> io::Result<usize>
    ensures { IfOk result (λ n. n ≤ length list.new) }
{
    let mut file = fs::open(files, "folders")?;
    reading::read_full(&mut file, list)
}

// Answers how many runs failed.
fn run_folders(rt: &(impl Files + Print + Eprint), list: &[u8]) -> io::Result<usize> {
    let mut failed = 0usize;
    for line in list.split_inclusive(|byte| *byte == b'\n') {
        let name = line.strip_suffix(b"\n").unwrap_or(line);
        failed = failed.saturating_add(run_folder(rt, name)?);
    }
    Ok(failed)
}

// Answers how many runs failed, 0 or 1.
fn run_folder(rt: &(impl Files + Print + Eprint), name: &[u8]) -> io::Result<usize>
    ensures { IfOk result (λ n. n ≤ 1) }
{
    rt.write_all(b"== ")?;
    rt.write_all(name)?;
    rt.write_all(b"\n")?;
    match run_named(rt, name) {
        Ok(()) => Ok(0),
        Err(e) => {
            eprintln!(rt; "{}: {e}", name.escape_ascii())?;
            Ok(1)
        }
    }
}

// Runs a folder; its name has to be UTF-8, as each path here.
fn run_named(rt: &(impl Files + Print), name: &[u8]) -> Result<(), Failure> {
    let mut block = [0u8; 4096];
    let b = path(&mut block, name, b"/block.bin");
    let mut inputs = [0u8; 4096];
    let i = path(&mut inputs, name, b"/inputs.bin");
    running::run(rt, &block[..b], &inputs[..i])
}

// The folder's name and the file's. What does not fit is left out, and such a path is too long to be opened.
fn path(out: &mut [u8], folder: &[u8], file: &[u8]) -> usize
    ensures { result ≤ length out.new }
{
    for (to, byte) in out.iter_mut().zip(folder.iter().chain(file)) {
        *to = *byte;
    }
    out.len().min(folder.len().saturating_add(file.len()))
}
