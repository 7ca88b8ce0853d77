// Parts of lent bytes: one that a call hands back, and one that bytes are copied into.
ghost use Rattle.std.specs.Prelude.{◌≡◌, ◌+◌, ◌-◌, ◌≤◌, length};
ghost use Rattle.std.proofs.lemmas.List.Edits.{sets};
ghost use Rattle.records.specs.Parts.{LiesAt};

// The lent bytes from start to end themselves, no copy of them.
pub fn cut<'a>(lent: &'a [u8], start: usize, end: usize) -> &'a [u8]
    requires { (start ≤ end) × (end ≤ length lent.now) }
    ensures { LiesAt result lent.entry start (end - start) }
{
    &lent[start..end]
}

// Some bytes stored from a place on.
pub fn copy_at(to: &mut [u8], at: usize, from: &[u8])
    requires { at + length from.now ≤ length to.old }
    ensures { to.new ≡ sets to.old at from.now }
{
    // The library's `copy_from_slice` is memmove, which the static library is to do without.
    for i in 0..from.len() {
        to[at + i] = from[i];
    }
}
