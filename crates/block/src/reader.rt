// The reading of a statement with its children, into the table.
ghost use Rattle.std.specs.Prelude.{◌≡◌, ◌+◌, ◌≤◌, ◌<◌, length, Ok};
ghost use Rattle.std.specs.Result.{result_and};
ghost use Rattle.block.specs.Format.{read};
ghost use Rattle.block.specs.Told.{header_of, sofar_of, around_of, Reads, Ready, Full};

use crate::faults::statement_fault;
use crate::records::two_bytes;
use crate::steps::{inner, kept, passed};
use crate::{Context, Cursor, Declared};
use refusals::Refused;
use tables::Table;
use tables::kinds::shape_of;

// A statement with its children, or why the first record at fault is turned down and where. The cursor is moved past them in place, for an answer that held it
// would be copied once for each statement; after a refusal nothing is said of it.
pub(crate) fn read_at(
    b: &[u8],
    d: Declared,
    c: Context,
    r: &mut Cursor,
    table: &mut Table,
) -> Result<(), Refused>
    requires { Ready (length b.now) d c r.old × Full table.old }
    ensures { Reads (read c.room b.now (header_of d) (around_of c) (sofar_of r.old)) r.old.statements
        table.old
        table.new (result_and result (Ok r.new)) }
{
    statement_fault(b, d, c, *r)?;
    let n = r.statements;
    let kind = two_bytes(b, r.at + 2);
    let operand = two_bytes(b, r.at + 4);
    // The tests let only a kind with a shape pass.
    let shape = shape_of(kind).unwrap();
    table.kinds[n] = kind;
    table.operands[n] = kept(kind, shape.operands, operand, r.pauses);
    let around = inner(c, kind, operand);
    *r = passed(*r, kind, shape.length);
    for _ in 0..shape.children {
        read_at(b, d, around, r, table)?;
    }
    table.sizes[n] = (r.statements - n) as u16;
    Ok(())
}
