// What must and can give as words of signals and codes: each rule is a function here with its own contract.
ghost use Rattle.std.specs.Prelude.{◌≡◌, false, ◌<◌};
ghost use Rattle.sets.specs.Numbers.{single};
ghost use Rattle.sets.specs.Words.{bits};
ghost use Rattle.rules.specs.Events.{unknown};
ghost use Rattle.rules.specs.MustCan.{can, nothing_known, either, caught, both, followed, onward, marked, local_status, hidden};
ghost use Rattle.words.specs.Words.{given_of, seen_as, mark_of, quiet, loud};

use crate::events::{Seen, bit, has_signal};
use code_sets::{followed_codes, larger, lowered};
use tables::codes::code_bit;
use tables::kinds::Code;

// What must, or can with a mark, gives.
#[derive(Clone, Copy)]
pub struct GivenWords {
    pub signals: u64,
    pub codes: u32,
}

// What must and can give; under open mark only can is meant.
#[derive(Clone, Copy)]
pub struct MustCan {
    pub must: GivenWords,
    pub can: GivenWords,
}

// Can's mark: plus (surely executed) or open.
#[derive(Clone, Copy)]
pub enum Mark {
    Plus,
    Open,
}

// No signal and one code.
pub fn silent(c: Code) -> GivenWords
    ensures { c.0 < 32 → given_of result ≡ quiet c.0 }
{
    let codes = code_bit(c);
    GivenWords { signals: 0, codes }
}

// One signal and code 0.
pub fn saying(s: u16) -> GivenWords
    ensures { s < 64 → given_of result ≡ loud s }
{
    let signals = bit(s);
    GivenWords { signals, codes: 1 }
}

// No signal and no code.
pub fn nothing_given() -> GivenWords
    ensures { given_of result ≡ nothing_known }
{
    GivenWords {
        signals: 0,
        codes: 0,
    }
}

// The union of two branches.
pub fn either_given(a: GivenWords, b: GivenWords) -> GivenWords
    ensures { given_of result ≡ either (given_of a) (given_of b) }
{
    GivenWords {
        signals: a.signals | b.signals,
        codes: a.codes | b.codes,
    }
}

// A trap.
pub fn caught_given(a: GivenWords) -> GivenWords
    ensures { given_of result ≡ caught (given_of a) }
{
    let codes = lowered(a.codes);
    GivenWords {
        signals: a.signals,
        codes,
    }
}

// A parallel.
pub fn both_given(a: GivenWords, b: GivenWords) -> GivenWords
    ensures { given_of result ≡ both (given_of a) (given_of b) }
{
    let codes = larger(a.codes, b.codes);
    GivenWords {
        signals: a.signals | b.signals,
        codes,
    }
}

// Whether 0 is among the codes.
pub fn gives_zero(codes: u32) -> bool
    ensures { result ≡ bits codes 0 }
{
    codes % 2 == 1
}

// A sequence.
pub fn followed_given(a: GivenWords, b: GivenWords) -> GivenWords
    ensures { given_of result ≡ followed (given_of a) (given_of b) }
{
    let codes = followed_codes(a.codes, b.codes);
    if gives_zero(a.codes) {
        GivenWords {
            signals: a.signals | b.signals,
            codes,
        }
    } else {
        GivenWords {
            signals: a.signals,
            codes,
        }
    }
}

// A local's signal removed.
pub fn hidden_given(s: u16, a: GivenWords) -> GivenWords
    ensures { s < 64 → given_of result ≡ hidden s (given_of a) }
{
    let b = bit(s);
    GivenWords {
        signals: a.signals & (a.signals ^ b),
        codes: a.codes,
    }
}

// A status that was unknown, marked: present if in must, absent if not in can.
pub(crate) fn marked_as(sure: bool, may: bool) -> Seen
    ensures { seen_as result ≡ marked sure may unknown }
{
    if sure {
        Seen::Present
    } else if may {
        Seen::Unknown
    } else {
        Seen::Absent
    }
}

// A local's status, from its body with the signal unknown; must is asked only if the mark is plus.
pub fn settled_for(mark: Mark, s: u16, a: MustCan) -> Seen
    ensures { s < 64 → seen_as result ≡ local_status (can (mark_of mark)) s (given_of a.must) (given_of a.can) }
{
    let sure = has_signal(a.must.signals, s);
    let may = has_signal(a.can.signals, s);
    match mark {
        Mark::Plus => marked_as(sure, may),
        Mark::Open => marked_as(false, may),
    }
}

// The mark of a sequence's second part: plus only if it was plus and the first must give 0.
pub fn mark_onward(mark: Mark, codes: u32) -> Mark
    ensures { can (mark_of result) ≡ onward (can (mark_of mark)) (bits codes 0) }
{
    match mark {
        Mark::Plus if gives_zero(codes) => Mark::Plus,
        _ => Mark::Open,
    }
}

// Whether a sequence's second part counts, under its mark, after these codes that the first can give.
pub fn goes_on(mark: Mark, codes: u32) -> bool
    ensures { result ≡ false → (mark ≡ Mark.Open) × (bits codes 0 ≡ false) }
{
    match mark {
        Mark::Plus => true,
        Mark::Open => gives_zero(codes),
    }
}
