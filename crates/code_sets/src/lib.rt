// Sets of completion codes as words, and what the rules do to them.
#![tactic(auto)]

ghost use Rattle.std.specs.Prelude.{◌≡◌, ◌<◌};
ghost use Rattle.sets.specs.Numbers.{union, without, only_if, maxima, downs};
ghost use Rattle.sets.specs.Words.{bits};

// Whether a code is in a set.
pub fn has_code(codes: u32, n: u32) -> bool
    ensures { n < 32 → result ≡ bits codes n }
{
    n < 32 && (codes >> n) % 2 == 1
}

// Codes down: 0 and 2 become 0, 1 stays 1, k above 2 becomes k - 1.
pub fn lowered(codes: u32) -> u32
    ensures { bits result ≡ downs (bits codes) }
{
    let zero = codes % 2 | codes / 4 % 2;
    let one = codes / 2 % 2;
    codes / 8 * 4 + one * 2 + zero
}

// A set without the code 0.
pub fn without_zero(codes: u32) -> u32
    ensures { bits result ≡ without 0 (bits codes) }
{
    codes & (codes ^ 1)
}

// A sequence's codes: the second part counts if 0 is in the first's codes, which is then removed.
pub fn followed_codes(a: u32, b: u32) -> u32
    ensures { bits result ≡ union (without 0 (bits a)) (only_if (bits a 0) (bits b)) }
{
    if has_code(a, 0) {
        without_zero(a) | b
    } else {
        without_zero(a)
    }
}

// The larger of two codes, one of each set, for every such pair: every code of either set from the larger of the two least ones on. An empty set
// has 32 trailing zeros, and clearing 32 places leaves nothing; in 64 bits a shift by 32 is allowed. One path, no branch.
pub fn larger(a: u32, b: u32) -> u32
    ensures { bits result ≡ maxima (bits a) (bits b) }
{
    let least = u32::trailing_zeros(a);
    let other = u32::trailing_zeros(b);
    let either = (a | b) as u64;
    let above = (either >> least) << least;
    let both = (above >> other) << other;
    both as u32
}
