// What a name stands for where it stands: the declarations around it, from the outermost in, each hiding none.
ghost use Rattle.std.specs.Prelude.{◌≡◌, ℕ, ◌≤◌, ◌<◌, length, drop};
ghost use Rattle.text.specs.Tokens.{word_of};
ghost use Rattle.read_steps.specs.Found.{TrapBelow, beyond_trap, through, passed_name, found_as, header_found, names_found};

use crate::levels::{Level, Scope};
use crate::steps::Stage;
use text::tokens::{Kind, same_word, token_at};

// A signal with its number, a trap with the depth of an exit of it, or neither.
#[derive(Clone, Copy)]
pub enum Found {
    Nothing,
    Signal(usize),
    Trap(usize),
}

// The same from inside one more trap.
fn deeper(f: Found) -> Found
    requires { TrapBelow 1025 f }
    ensures { result ≡ beyond_trap f }
{
    match f {
        Found::Nothing => Found::Nothing,
        Found::Signal(n) => Found::Signal(n),
        Found::Trap(d) => Found::Trap(d + 1),
    }
}

// What a name stands for inside a level, by what it stands for around it.
fn inside(text: &[u8], l: Level, name: usize, f: Found) -> Found
    requires { TrapBelow 1025 f }
    ensures { result ≡ through text.now l (word_of (drop name text.now)) f }
{
    match l.kind {
        Scope::TrapBody => {
            if same_word(text, l.name, name) {
                return Found::Trap(0);
            }
            deeper(f)
        }
        Scope::SignalBody => {
            if same_word(text, l.name, name) {
                return Found::Signal(l.number);
            }
            f
        }
        _ => f,
    }
}

// How many names of the header were passed, and the number of the last of them that is the one looked for.
#[derive(Clone, Copy)]
struct Passed {
    count: usize,
    found: Option<usize>,
}

// One token of the header more.
fn pass(text: &[u8], kind: Kind, start: usize, name: usize, p: Passed) -> Passed
    requires { p.count < length text.now }
    ensures { result ≡ passed_name text.now kind start (word_of (drop name text.now)) p }
{
    match kind {
        Kind::Name => {
            if same_word(text, start, name) {
                return Passed {
                    count: p.count + 1,
                    found: Some(p.count),
                };
            }
            Passed {
                count: p.count + 1,
                ..p
            }
        }
        _ => p,
    }
}

// The signal that was found, by its number.
fn numbered(found: Option<usize>) -> Found
    ensures { result ≡ found_as found }
{
    match found {
        Some(n) => Found::Signal(n),
        None => Found::Nothing,
    }
}

// What a name stands for among the header's names, which end before a place of the text.
pub fn in_header(text: &[u8], end: usize, name: usize) -> Found
    ensures { result ≡ header_found text.now end (word_of (drop name text.now)) }
{
    let mut at: usize = 0;
    let mut p = Passed {
        count: 0,
        found: None,
    };
    loop {
        let t = token_at(text, at);
        let start = t.start;
        if text.len() <= start {
            return numbered(p.found);
        }
        if end <= start {
            return numbered(p.found);
        }
        p = pass(text, t.kind, start, name, p);
        at = t.end;
    }
}

// What a name stands for inside the levels and the innermost one.
pub fn find(text: &[u8], levels: &[Level; 1024], s: Stage, end: usize, name: usize) -> Found
    requires { s.depth ≤ 1024 }
    ensures { result ≡ names_found text.now levels.now s.depth s.top end (word_of (drop name text.now)) }
{
    let mut f = in_header(text, end, name);
    for level in &levels[..s.depth] {
        f = inside(text, *level, name, f);
    }
    inside(text, s.top, name, f)
}
