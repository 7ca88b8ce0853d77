// The reading of a whole block: size, header, statements, end and loops.
ghost use Rattle.std.specs.Prelude.{◌≡◌, ◌≤◌, ◌<◌, length};
ghost use Rattle.rules.specs.Statements.{Stmt};
ghost use Rattle.tables.specs.Table.{statements};
ghost use Rattle.block.specs.Format.{got, ended, reading, offset};
ghost use Rattle.block.specs.Told.{header_of, sofar_of, Full, answer_to, ReadWhole};
ghost use Rattle.tables.specs.Codes.{Tabled, Listed};

use crate::faults::header_fault;
use crate::reader::read_at;
use crate::steps::declared;
use crate::{Context, Cursor, Declared};
use refusals::{Refused, Why};
use tables::Table;
use tables::kinds::record_length;
use tables::loops::lowest_endless;

// What a good block declares, and how many statements and pauses it has.
#[derive(Clone, Copy)]
pub struct Summary {
    pub version: u16,
    pub inputs: u16,
    pub outputs: u16,
    pub locals: u16,
    pub statements: usize,
    pub pauses: u16,
}

// The offset of statement n: the header and the records of all statements before it.
pub fn offset_of(table: &Table, n: usize) -> usize
    requires { n ≤ 512 }
    ensures { (t : Stmt) → Listed table.now.kinds t → n ≤ statements t → result ≡ offset t n }
{
    let mut at: usize = 14;
    for &kind in &table.kinds[..n] {
        at += usize::from(record_length(kind));
    }
    at
}

// After the tree: no bytes left, all locals declared, no endless loop.
fn finished(b: &[u8], d: Declared, r: Cursor, table: &Table) -> Result<Summary, Refused>
    requires { r.statements ≤ 512 }
    ensures { (t : Stmt) → Tabled table.now r.statements t
        → result ≡ answer_to (ended b.now (header_of d) (got t (sofar_of r))) }
{
    if r.at != b.len() || r.locals != d.locals {
        return Err(Why::Shape.at(r.at));
    }
    let count = r.statements;
    if let Some(n) = lowest_endless(table, count) {
        return Err(Why::Loop.at(offset_of(table, n)));
    }
    Ok(Summary {
        version: d.version,
        inputs: d.inputs,
        outputs: d.outputs,
        locals: d.locals,
        statements: count,
        pauses: r.pauses,
    })
}

// Reads a block into the table: the kind, the operand and the size of each statement.
pub fn read_block(b: &[u8], table: &mut Table) -> Result<Summary, Refused>
    requires { Full table.old }
    ensures { ReadWhole (reading b.now) table.new result }
{
    if 3086 < b.len() {
        return Err(Why::Limit.at(0));
    }
    header_fault(b, 1)?;
    let d = declared(b);
    let c = Context {
        traps: 0,
        nested: 0,
        scope: 0,
        room: 64,
    };
    let mut r = Cursor {
        at: 14,
        statements: 0,
        pauses: 0,
        locals: 0,
    };
    read_at(b, d, c, &mut r, table)?;
    finished(b, d, r, table)
}
