// Records in house form: their bytes, and the test for a broken one.
ghost use Rattle.std.specs.Prelude.{◌≡◌, ◌<◌, get_or};
ghost use Rattle.block.specs.Format.{two_bytes, is_broken};

// The byte at a place, and 0 past the end.
pub(crate) fn byte_at(b: &[u8], at: usize) -> u16
    ensures value { result ≡ get_or b.now at 0 }
    ensures upper_bound { result < 256 }
{
    b.get(at).map_or(0, |&byte| u16::from(byte))
}

// Two bytes, little-endian.
pub fn two_bytes(b: &[u8], at: usize) -> u16
    requires { at < 65536 }
    ensures { result ≡ two_bytes b.now at }
{
    byte_at(b, at) + 256 * byte_at(b, at + 1)
}

// Fewer than 4 bytes are left, or the length is below 4 or above what is left.
#[tactic(auto, unfolding(crate::specs::Format::is_broken))]
pub(crate) fn broken(b: &[u8], at: usize) -> bool
    requires { at < 65536 }
    ensures { result ≡ is_broken b.now at }
{
    if b.len() < at + 4 {
        return true;
    }
    let length = two_bytes(b, at) as usize;
    length < 4 || b.len() - at < length
}
