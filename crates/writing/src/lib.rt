// The writing of a block: its header, its records, and what a call that writes answers.
#![tactic(auto)]

ghost use Rattle.std.specs.Prelude.{◌≡◌, List, ℕ, ◌+◌, ◌≤◌, length};
ghost use Rattle.std.proofs.lemmas.List.Edits.{sets};
ghost use Rattle.tables.specs.Kinds.{length_of};
ghost use Rattle.block.specs.Told.{header_of};
ghost use Rattle.writing.specs.Written.{header_bytes, record_bytes};
ghost use Rattle.writing.specs.Answers.{writes, roomed, wrote_values, wrote_owed};

use block::Declared;
use records::numerals::put_number;
use refusals::{Refused, Why};
use tables::kinds::shape_of;

// A header at the front of the lent bytes; those behind it stay.
pub fn put_header(out: &mut [u8], d: Declared)
    requires { 14 ≤ length out.old }
    ensures { out.new ≡ sets out.old 0 (header_bytes (header_of d)) }
{
    put_number(out, 0, 2, 14);
    put_number(out, 2, 2, 1);
    put_number(out, 4, 2, 1);
    put_number(out, 6, 2, d.version as u64);
    put_number(out, 8, 2, d.inputs as u64);
    put_number(out, 10, 2, d.outputs as u64);
    put_number(out, 12, 2, d.locals as u64);
}

// A statement's record from a place on, and the place behind it. The operand of a kind that has none is not written, and a kind
// that is not allowed has no record: nothing is written.
pub fn put_record(out: &mut [u8], at: usize, kind: u16, operand: u16) -> usize
    requires { at + length_of kind ≤ length out.old }
    ensures value { result ≡ at + length_of kind }
    ensures out_after { out.new ≡ sets out.old at (record_bytes kind operand) }
{
    let Some(shape) = shape_of(kind) else {
        return at;
    };
    let end = at + usize::from(shape.length);
    put_number(out, at, 2, shape.length as u64);
    put_number(out, at + 2, 2, kind as u64);
    if shape.operands != 1 {
        return end;
    }
    put_number(out, at + 4, 2, operand as u64);
    end
}

// The answer of a call that has so many bytes to write and so many bytes lent to it: how many it writes, or ROOM where the lent ones
// are too few, with every lent byte as it was.
pub fn in_room(size: usize, lent: usize) -> Result<usize, Refused>
    ensures { (bs : List ℕ) → length bs ≡ size → wrote_values result ≡ wrote_owed (roomed (writes bs) lent) }
{
    if lent < size {
        Err(Why::Room.at(0))
    } else {
        Ok(size)
    }
}
