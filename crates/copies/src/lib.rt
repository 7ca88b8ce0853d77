// The block with each loop body in sequence with itself, written into lent bytes.
#![tactic(auto)]

mod copying;
mod nodes;
mod sizes;

ghost use Rattle.std.specs.Prelude.{◌≡◌, ℕ, ◌+◌, ◌≤◌, ◌<◌, get_or, length};
ghost use Rattle.rules.specs.Statements.{Stmt};
ghost use Rattle.block.specs.Format.{Header};
ghost use Rattle.writing.specs.Answers.{roomed, wrote_values, wrote_owed, out_owed};
ghost use Rattle.doubled.specs.Copies.{doubling, doubled_writing};
ghost use Rattle.copies.specs.Doubling.{size_within, Doubles, Doubled};

use crate::copying::{Spot, put_copy};
use crate::sizes::{Size, size_at};
use block::Declared;
use block::whole::{Summary, read_block};
use refusals::{Refused, Why};
use std::array;
use tables::Table;
use tables::kinds::wide;
use writing::{in_room, put_header};

// Each signal under its own number.
fn own_names() -> [u16; 64]
    ensures { (s : ℕ) → s < 64 → get_or result s 0 ≡ s }
{
    array::from_fn(|s| s as u16)
}

// The limits that doubling can pass: nested traps and nested locals do not grow.
fn within(signals: u16, size: Size) -> bool
    requires { signals ≤ 64 }
    ensures { result ≡ size_within signals size }
{
    size.locals <= 64 - signals && size.statements <= 512 && size.pauses <= 128 && size.path <= 64
}

// The doubled block of a table, measured before it is written.
fn put_doubled(table: &Table, s: Summary, out: &mut [u8]) -> Result<usize, Refused>
    requires { (h : Header) × ((t : Stmt) × Doubles table.now s h t) }
    ensures { (h : Header) (t : Stmt) → Doubles table.now s h t
        → Doubled (doubled_writing h t) out.old out.new result }
{
    let signals = s.inputs + s.outputs;
    let size = size_at(table, 0);
    if !within(signals, size) {
        return Err(Why::Limit.at(0));
    }
    let bytes = in_room(14 + wide(size.bytes), out.len())?;
    put_header(
        out,
        Declared {
            version: s.version,
            inputs: s.inputs,
            outputs: s.outputs,
            locals: size.locals,
        },
    );
    put_copy(
        table,
        0,
        own_names(),
        Spot {
            to: 14,
            next: signals,
        },
        out,
    );
    Ok(bytes)
}

// Writes the block with each loop body in sequence with itself, from the inside out, with locals numbered anew, the header else kept.
pub fn double_loops(block: &[u8], out: &mut [u8]) -> Result<usize, Refused>
    ensures result_value { wrote_values result ≡ wrote_owed (roomed (doubling block.now) (length out.old)) }
    ensures out_after { out.new ≡ out_owed (roomed (doubling block.now) (length out.old)) out.old }
{
    let mut table = Table::empty();
    let s = read_block(block, &mut table)?;
    put_doubled(&table, s, out)
}
