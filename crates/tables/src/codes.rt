// The codes of a statement, from its kind and operand and its children's codes.
ghost use Rattle.std.specs.Prelude.{◌≡◌, ◌<◌};
ghost use Rattle.sets.specs.Numbers.{single};
ghost use Rattle.sets.specs.Words.{bits};
ghost use Rattle.rules.specs.Statements.{depth, code};
ghost use Rattle.tables.specs.Codes.{codes_for};

use crate::kinds::{
    Code, Depth, EXIT, LOCAL, LOOP, PARALLEL, PAUSE, PRESENT, SEQUENCE, SUSPEND, TRAP, code_of,
};
use code_sets::{followed_codes, larger, lowered, without_zero};

// The set of one code.
pub fn code_bit(c: Code) -> u32
    ensures { c.0 < 32 → bits result ≡ single c.0 }
{
    let n = c.0;
    if n < 32 { 1u32 << n } else { 0 }
}

// The code of an exit.
#[tactic(auto, using(crate::proofs::CodeLaws::small_code))]
pub(crate) fn exit_codes(d: Depth) -> u32
    ensures { d.0 < 16 → bits result ≡ single (code (depth d.0)) }
{
    code_bit(code_of(d))
}

// A statement's codes, from its kind and operand and its children's codes.
#[tactic(auto, using(code_sets::proofs::Laws::union_is, sets::proofs::Words::is_single), unfolding(crate::specs::Codes::codes_for))]
pub fn codes_for(kind: u16, operand: u16, first: u32, second: u32) -> u32
    ensures { (kind ≡ 25 → operand < 16) → bits result ≡ codes_for kind operand (bits first) (bits second) }
{
    match kind {
        PAUSE => 2,
        PRESENT => first | second,
        SUSPEND | LOCAL => first,
        SEQUENCE => followed_codes(first, second),
        LOOP => without_zero(first),
        PARALLEL => larger(first, second),
        TRAP => lowered(first),
        EXIT => exit_codes(Depth(operand)),
        _ => 1,
    }
}
