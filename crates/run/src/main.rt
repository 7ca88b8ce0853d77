// Runs block.bin on the input sets of inputs.bin, both in the folder that it is started in. Where one of them, or standard output,
// fails, standard error says which and why, and the status is 1.
#![tactic(auto)]

use anyhow::Result;

fn main(rt: HostRuntime) -> Result<()> {
    running::run(&rt, b"block.bin", b"inputs.bin")?;
    Ok(())
}
