// The declarations at the front of a text.
ghost use Rattle.std.specs.Prelude.{◌++◌, map, ◌+◌, ◌≤◌, length};
ghost use Rattle.rules.specs.Statements.{from};
ghost use Rattle.text.specs.Shown.{signal_word};
ghost use Rattle.write_text.specs.Pieces.{Puts, names_part};

use crate::bytes::{put_name, put_word};
use crate::names::signal_name;

// A word and a signal's name.
fn put_named(out: &mut [u8], to: usize, word: &[u8], s: u16, inputs: u16, outputs: u16) -> usize
    requires to_bound { to ≤ 2000000 }
    requires word_bound { length word.now ≤ 8 }
    ensures puts { Puts out.old out.new to result (λ x. word.now ++ (signal_word inputs outputs s ++ x)) }
    ensures upper_bound { result ≤ to + 16 }
{
    let worded = put_word(out, to, word);
    put_name(out, worded, signal_name(s, inputs, outputs))
}

// So many signals from one on, behind a word; nothing where there are none.
pub(crate) fn put_names(
    out: &mut [u8],
    to: usize,
    word: &[u8],
    start: u16,
    count: u16,
    inputs: u16,
    outputs: u16,
) -> usize
    requires to_bound { to ≤ 1000000 }
    requires word_bound { length word.now ≤ 8 }
    requires count_bound { start + count ≤ 64 }
    ensures puts { Puts out.old out.new to result (names_part word.now (map (signal_word inputs outputs) (from start count))) }
    ensures upper_bound { result ≤ to + 2000 }
{
    if count == 0 {
        return to;
    }
    let mut at = put_named(out, to, word, start, inputs, outputs);
    for s in start + 1..start + count {
        at = put_named(out, at, b", ", s, inputs, outputs);
    }
    put_word(out, at, b";")
}
