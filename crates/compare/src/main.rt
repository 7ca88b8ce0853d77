// Answers the calls of calls.bin in the folder that it is started in, a line a call. Where the file or standard output fails, standard error
// says which and why, and the status is 1.
#![tactic(auto)]

use anyhow::Result;

fn main(rt: HostRuntime) -> Result<()> {
    comparing::answer(&rt, b"calls.bin")?;
    Ok(())
}
