// Sets of pauses: 128 bits in two words, by value.
ghost use Rattle.std.specs.Prelude.{◌≡◌, ◌&&◌, ltb, ◌≤◌, ◌<◌};
ghost use Rattle.sets.specs.Numbers.{empty, single, union, without, only_if, maxima, downs, count};
ghost use Rattle.sets.specs.Words.{bits, set_of};
ghost use Rattle.words.specs.Words.{KeptWith};

use crate::given::gives_zero;
use code_sets::{followed_codes, larger, lowered};
use tables::codes::code_bit;
use tables::kinds::Code;

// A statement's must codes, and the pauses that it keeps.
#[derive(Clone, Copy)]
pub struct Kept {
    pub codes: u32,
    pub pauses: [u64; 2],
}

pub fn no_pause() -> [u64; 2]
    ensures { set_of result ≡ empty }
{
    [0, 0]
}

pub fn one_pause(n: u16) -> [u64; 2]
    ensures { n < 128 → set_of result ≡ single n }
{
    if n < 64 {
        return [1u64 << n, 0];
    }
    if n < 128 {
        return [0, 1u64 << (n - 64)];
    }
    [0, 0]
}

pub fn joined(a: [u64; 2], b: [u64; 2]) -> [u64; 2]
    ensures { set_of result ≡ union (set_of a) (set_of b) }
{
    [a[0] | b[0], a[1] | b[1]]
}

// Whether a pause is in a set.
pub fn has_pause(a: [u64; 2], n: u16) -> bool
    ensures { result ≡ (ltb n 128 && set_of a n) }
{
    if n < 64 {
        return a[0] & 1u64 << n != 0;
    }
    if n < 128 {
        return a[1] & 1u64 << (n - 64) != 0;
    }
    false
}

// A statement with code other than 1 keeps no pause.
pub(crate) fn kept_with(codes: u32, pauses: [u64; 2]) -> Kept
    ensures { (result.codes ≡ codes) × (set_of result.pauses ≡ only_if (bits codes 1) (set_of pauses)) }
{
    if codes / 2 % 2 == 1 {
        Kept { codes, pauses }
    } else {
        Kept {
            codes,
            pauses: [0, 0],
        }
    }
}

// How many members a word has.
pub fn members_of(w: u64) -> u32
    ensures { (result ≤ 64) × (result ≡ count 64 (bits w)) }
{
    w.count_ones()
}

// How many pauses are in a set.
pub fn pause_count(a: [u64; 2]) -> u32
    ensures { result ≡ count 128 (set_of a) }
{
    members_of(a[0]) + members_of(a[1])
}

// A code and no pause.
pub fn kept_none(c: Code) -> Kept
    ensures { (set_of result.pauses ≡ empty) × (c.0 < 32 → bits result.codes ≡ single c.0) }
{
    let codes = code_bit(c);
    Kept {
        codes,
        pauses: [0, 0],
    }
}

// No code and no pause.
pub fn kept_unknown() -> Kept
    ensures { (bits result.codes ≡ empty) × (set_of result.pauses ≡ empty) }
{
    Kept {
        codes: 0,
        pauses: [0, 0],
    }
}

// Code 1 and these pauses.
pub fn kept_here(pauses: [u64; 2]) -> Kept
    ensures { (bits result.codes ≡ single 1) × (result.pauses ≡ pauses) }
{
    Kept { codes: 2, pauses }
}

// A part that is chosen, or a local's body.
pub fn kept_again(a: Kept) -> Kept
    ensures { KeptWith result (bits a.codes) (set_of a.pauses) }
{
    let pauses = a.pauses;
    kept_with(a.codes, pauses)
}

// A trap.
pub fn kept_caught(a: Kept) -> Kept
    ensures { KeptWith result (downs (bits a.codes)) (set_of a.pauses) }
{
    let pauses = a.pauses;
    kept_with(lowered(a.codes), pauses)
}

// A parallel.
pub fn kept_beside(a: Kept, b: Kept) -> Kept
    ensures { KeptWith result (maxima (bits a.codes) (bits b.codes)) (union (set_of a.pauses) (set_of b.pauses)) }
{
    let left = a.pauses;
    let right = b.pauses;
    kept_with(larger(a.codes, b.codes), joined(left, right))
}

// A sequence.
pub fn kept_chain(a: Kept, b: Kept) -> Kept
    ensures { KeptWith result (union (without 0 (bits a.codes)) (only_if (bits a.codes 0) (bits b.codes)))
        (union (set_of a.pauses) (only_if (bits a.codes 0) (set_of b.pauses))) }
{
    let codes = followed_codes(a.codes, b.codes);
    let first = a.pauses;
    let later = b.pauses;
    if gives_zero(a.codes) {
        kept_with(codes, joined(first, later))
    } else {
        kept_with(codes, first)
    }
}
