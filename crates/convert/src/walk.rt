// The walk that writes: the records of a block of edition 2 are read one after the other, and those of the conversion written.
ghost use Rattle.std.specs.Prelude.{◌≡◌, ℕ, ◌<◌, length};
ghost use Rattle.std.proofs.Math.Option.{some};
ghost use Rattle.everyday.specs.Statements.{Everyday};
ghost use Rattle.converting.specs.Format.{Sort, sort_of};
ghost use Rattle.convert.specs.Walk.{HeadAt, FewMarks, MarksInside, RoomFirst, RoomLast, Puts, first_bytes, first_size, last_bytes, last_size, sends};
ghost use Rattle.convert.specs.Walk.{Recorded, Walks, WrittenOut};

use crate::exits::sent;
use crate::{put_abort, put_abort_end, put_await, put_halt, put_sustain};
use block::records::two_bytes;
use tables::kinds::{Depth, wide_shape_of};
use writing::put_record;

// A record's kind and operand, the place behind it, and how many statements stand below it.
#[derive(Clone, Copy)]
pub struct Head {
    pub kind: u16,
    pub operand: u16,
    pub behind: usize,
    pub children: u16,
}

// The traps (1) and aborts (0) around a statement, the innermost at bit 0, and how many they are.
#[derive(Clone, Copy)]
pub struct Marks {
    pub word: u64,
    pub count: u16,
}

// The first byte not read yet, and the place where the next record is written.
#[derive(Clone, Copy)]
pub struct Spot {
    pub at: usize,
    pub to: usize,
}

fn head_at(b: &[u8], at: usize) -> Head
    requires { at < 3086 }
    ensures { HeadAt b.now at result }
{
    let kind = two_bytes(b, at + 2);
    let operand = two_bytes(b, at + 4);
    match wide_shape_of(kind) {
        Some(s) => Head {
            kind,
            operand,
            behind: at + s.length as usize,
            children: s.children,
        },
        None => Head {
            kind,
            operand,
            behind: at,
            children: 0,
        },
    }
}

// The marks around what stands below a statement: a trap and an abort are one more.
fn inside(marks: Marks, kind: u16) -> Marks
    requires { FewMarks marks }
    ensures { (x : ℕ) (s : Sort) → sort_of kind x ≡ some s → MarksInside s marks result }
{
    match kind {
        24 => Marks {
            word: marks.word * 2 + 1,
            count: marks.count + 1,
        },
        35 => Marks {
            word: marks.word * 2,
            count: marks.count + 1,
        },
        _ => marks,
    }
}

// What is written for a record before the statements below it. An exit goes one deeper for each abort that it leaves.
fn put_first(out: &mut [u8], to: usize, kind: u16, operand: u16, marks: Marks) -> usize
    requires { RoomFirst kind operand to (length out.old) marks }
    ensures { (s : Sort) → sort_of kind operand ≡ some s
        → Puts (first_bytes (sends marks) s) (first_size s) to result out.old out.new }
{
    match kind {
        25 => {
            let d = sent(marks.word, marks.count, Depth(operand));
            put_record(out, to, 25, d.0)
        }
        32 => put_halt(out, to),
        33 => put_sustain(out, to, operand),
        34 => put_await(out, to, operand),
        35 => put_abort(out, to, operand),
        _ => put_record(out, to, kind, operand),
    }
}

// What is written behind them: an abort's form goes on.
fn put_last(out: &mut [u8], to: usize, kind: u16, operand: u16) -> usize
    requires { RoomLast kind operand to (length out.old) }
    ensures { (s : Sort) → sort_of kind operand ≡ some s
        → Puts (last_bytes s) (last_size s) to result out.old out.new }
{
    if kind == 35 {
        return put_abort_end(out, to, operand);
    }
    to
}

// A statement and those below it.
pub(crate) fn write_at(b: &[u8], spot: Spot, marks: Marks, out: &mut [u8]) -> Spot
    requires { (p : Everyday) × Walks b.now spot marks (length out.old) p }
    ensures { (p : Everyday) → Recorded b.now spot.at p
        → WrittenOut p marks spot result out.old out.new }
{
    let h = head_at(b, spot.at);
    let to = put_first(out, spot.to, h.kind, h.operand, marks);
    if h.children == 0 {
        return Spot { at: h.behind, to };
    }
    let inner = inside(marks, h.kind);
    let below = write_at(b, Spot { at: h.behind, to }, inner, out);
    if h.children == 1 {
        let end = put_last(out, below.to, h.kind, h.operand);
        return Spot {
            at: below.at,
            to: end,
        };
    }
    write_at(b, below, marks, out)
}
