// Bytes put one after the other into lent bytes. Past their end places are counted and nothing is written: so the size of a text is known
// before its first byte is written.
ghost use Rattle.std.specs.Prelude.{◌≡◌, ◌++◌, ◌+◌, ◌≤◌, length, set};
ghost use Rattle.text.specs.Shown.{line};
ghost use Rattle.write_text.specs.Pieces.{Puts, coded, row_text};

use tables::kinds::wide;

// One byte, and the place behind it.
fn put_byte(out: &mut [u8], at: usize, b: u8) -> usize
    requires { at ≤ 4000000 }
    ensures value { result ≡ at + 1 }
    ensures out_after { out.new ≡ set out.old at b }
{
    if at < out.len() {
        out[at] = b;
    }
    at + 1
}

// A word of at most eight bytes.
pub(crate) fn put_word(out: &mut [u8], to: usize, word: &[u8]) -> usize
    requires to_bound { to ≤ 3000000 }
    requires word_bound { length word.now ≤ 8 }
    ensures puts { Puts out.old out.new to result (λ x. word.now ++ x) }
    ensures upper_bound { result ≤ to + 8 }
{
    let mut at = to;
    for &byte in word {
        at = put_byte(out, at, byte);
    }
    at
}

// A name of at most eight bytes, none of them 0, that are one number, the first byte lowest.
pub(crate) fn put_name(out: &mut [u8], to: usize, name: u64) -> usize
    requires { to ≤ 3000000 }
    ensures puts { Puts out.old out.new to result (λ x. coded name ++ x) }
    ensures upper_bound { result ≤ to + 8 }
{
    let mut at = to;
    let mut left = name;
    while left != 0 {
        at = put_byte(out, at, (left % 256) as u8);
        left = left / 256;
    }
    at
}

// A new line, with two blanks for each construct that is open.
fn put_line(out: &mut [u8], to: usize, indent: u16) -> usize
    requires { to ≤ 3000000 }
    ensures puts { Puts out.old out.new to result (line indent) }
    ensures upper_bound { result ≤ to + 200000 }
{
    let mut at = put_byte(out, to, b'\n');
    for _ in 0..2 * wide(indent) {
        at = put_byte(out, at, b' ');
    }
    at
}

// A line of up to three words, the second a name; nothing where the first word is empty.
pub(crate) fn put_row(
    out: &mut [u8],
    to: usize,
    indent: u16,
    first: &[u8],
    name: u64,
    last: &[u8],
) -> usize
    requires to_bound { to ≤ 2000000 }
    requires first_bound { length first.now ≤ 8 }
    requires last_bound { length last.now ≤ 8 }
    ensures { Puts out.old out.new to result (row_text indent first.now (coded name) last.now) }
{
    if first.is_empty() {
        return to;
    }
    let begun = put_line(out, to, indent);
    let worded = put_word(out, begun, first);
    let named = put_name(out, worded, name);
    put_word(out, named, last)
}
