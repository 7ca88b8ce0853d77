// Little-endian numbers in lent bytes.
ghost use Rattle.std.specs.Prelude.{◌≡◌, ◌+◌, ◌≤◌, length};
ghost use Rattle.std.proofs.lemmas.List.Edits.{sets};
ghost use Rattle.records.specs.Numerals.{in_bytes, field};

// The number in n bytes from a place on, the highest byte first into the sum.
pub fn number_at(s: &[u8], at: usize, n: usize) -> u64
    requires { (at + n ≤ length s.now) × (n ≤ 8) }
    ensures { result ≡ field s.now at n }
{
    let mut x: u64 = 0;
    for k in (0..n).rev() {
        x = x * 256 + s[at + k] as u64;
    }
    x
}

// The number's lowest n bytes, stored from a place on.
pub fn put_number(s: &mut [u8], at: usize, n: usize, x: u64)
    requires { at + n ≤ length s.old }
    ensures { s.new ≡ sets s.old at (in_bytes n x) }
{
    let mut rest = x;
    for i in 0..n {
        s[at + i] = (rest % 256) as u8;
        rest /= 256;
    }
}
