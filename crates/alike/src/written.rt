// The run to a difference, written one byte a set: read off the links from its end to its front.
ghost use Rattle.std.specs.Prelude.{◌≡◌, ◌++◌, ℕ, ◌+◌, ◌≤◌, ◌<◌, length, drop};
ghost use Rattle.pairs.specs.Runs.{Run, ◌▸◌, size, bytes_of};
ghost use Rattle.alike.specs.Ends.{Linked};

use crate::search::Link;

// How many sets lead to a pair.
fn run_size(links: &[Link; 1024], at: usize) -> usize
    requires { (at < 1024) × ((walk : ℕ → Run) × Linked links.now walk (at + 1)) }
    ensures { (result ≤ at) × ((walk : ℕ → Run) → Linked links.now walk (at + 1) → result ≡ size (walk at)) }
{
    let mut n: usize = 0;
    let mut k = at;
    while 0 < k {
        k = links[k].parent as usize;
        n += 1;
    }
    n
}

// The sets that lead to a step, and its own.
pub(crate) fn write_run(links: &[Link; 1024], last: Link, run: &mut [u8]) -> usize
    requires { (last.parent < 1024) × (1024 ≤ length run.old) × ((walk : ℕ → Run) × Linked links.now walk (last.parent + 1)) }
    ensures by_index { (walk : ℕ → Run) → Linked links.now walk (last.parent + 1) → result ≡ size (walk last.parent ▸ last.set) }
    ensures by_index_2 { (walk : ℕ → Run) → Linked links.now walk (last.parent + 1)
        → run.new ≡ bytes_of (walk last.parent ▸ last.set) ++ drop (size (walk last.parent ▸ last.set)) run.old }
{
    let mut k = last.parent as usize;
    let n = run_size(links, k);
    run[n] = last.set;
    for i in (0..n).rev() {
        run[i] = links[k].set;
        k = links[k].parent as usize;
    }
    n + 1
}
