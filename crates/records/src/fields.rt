// Records of fixed fields, written and read by the widths of their fields.
ghost use Rattle.std.specs.Prelude.{◌≡◌, ℕ, ◌+◌, ◌≤◌, ◌<◌, length, get_or};
ghost use Rattle.std.proofs.lemmas.List.Edits.{sets};
ghost use Rattle.records.specs.Fields.{size, laid, value};

use crate::numerals::{number_at, put_number};

// The values from a place on, each in as many bytes as its field has.
pub fn put_fields(s: &mut [u8], at: usize, widths: &[usize], values: &[u64])
    requires { (at + size widths.now ≤ length s.old) × (length widths.now ≡ length values.now) }
    ensures { s.new ≡ sets s.old at (laid widths.now values.now) }
{
    let mut to = at;
    for i in 0..widths.len() {
        let n = widths[i];
        put_number(s, to, n, values[i]);
        to += n;
    }
}

// The value of field i.
pub fn field_at(s: &[u8], widths: &[usize], i: usize) -> u64
    requires { (size widths.now ≤ length s.now) × (i < length widths.now) × (get_or widths.now i 0 ≤ 8) }
    ensures { result ≡ value widths.now i s.now }
{
    let mut at = 0;
    for width in &widths[..i] {
        at += *width;
    }
    number_at(s, at, widths[i])
}
