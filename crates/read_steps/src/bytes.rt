// The records of a block while it is read, in lent bytes behind room for the header. A size over 3,072 says that they are more than a block
// may have: then they are kept no longer.
ghost use Rattle.std.specs.Prelude.{◌≡◌, List, ◌++◌, ℕ, ◌+◌, ◌≤◌, length, set};
ghost use Rattle.writing.specs.Written.{record_bytes};
ghost use Rattle.text.specs.Machine.{inserted, operand_set};
ghost use Rattle.read_steps.specs.Records.{Sized, Short, Written, Grown};

use tables::kinds::wide;
use writing::put_record;

// One record more at the end; the new size.
pub fn append(out: &mut [u8], size: u16, kind: u16, operand: u16) -> u16
    requires out_len { length out.old ≡ 3092 }
    requires sized { Sized kind }
    ensures { (b : List ℕ) → Written out.old size b → Grown out.new size result (b ++ record_bytes kind operand) }
{
    if 3072 < size {
        return size;
    }
    let end = put_record(out, 14 + wide(size), kind, operand);
    (end - 14) as u16
}

// A record of four bytes put in before what begins at a place; the new size.
pub fn insert(out: &mut [u8], size: u16, at: u16, kind: u16) -> u16
    requires out_len { length out.old ≡ 3092 }
    requires short { Short kind }
    ensures { (b : List ℕ) (a : ℕ) → (size ≤ 3072 → at ≡ a) → Written out.old size b → Grown out.new size result (inserted kind a b) }
{
    if 3072 < size {
        return size;
    }
    let end = 14 + wide(size);
    if size <= at {
        put_record(out, end, kind, 0);
        return size + 4;
    }
    let from = 14 + wide(at);
    out.copy_within(from..end, from + 4);
    put_record(out, from, kind, 0);
    size + 4
}

// One byte of the records stored anew, where there is such a byte.
fn put_byte(out: &mut [u8], size: u16, at: usize, b: u8)
    requires { length out.old ≡ 3092 }
    ensures { (bs : List ℕ) → Written out.old size bs → Written out.new size (set bs at b) }
{
    if 3072 < size {
        return;
    }
    if wide(size) <= at {
        return;
    }
    let i = 14 + at;
    out[i] = b;
}

// The operand of the record that begins at a place stored anew.
pub fn put_operand(out: &mut [u8], size: u16, at: u16, x: u16)
    requires { length out.old ≡ 3092 }
    ensures { (b : List ℕ) (a : ℕ) → (size ≤ 3072 → at ≡ a) → Written out.old size b → Written out.new size (operand_set x a b) }
{
    put_byte(out, size, wide(at) + 4, (x % 256) as u8);
    put_byte(out, size, wide(at) + 5, (x / 256 % 256) as u8);
}
