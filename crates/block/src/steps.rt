// What has been read and what stands around, from one record to the next.
ghost use Rattle.std.specs.Prelude.{◌≡◌, cond, ◌+◌, ◌≤◌, ◌<◌, eqb};
ghost use Rattle.sets.specs.Numbers.{union, single};
ghost use Rattle.sets.specs.Words.{bits};
ghost use Rattle.block.specs.Format.{header, past, inside};
ghost use Rattle.tables.specs.Kinds.{length_of, operands_of};
ghost use Rattle.block.specs.Told.{header_of, sofar_of, around_of};
ghost use Rattle.tables.specs.Table.{kept_operand};

use crate::records::two_bytes;
use crate::{Context, Cursor, Declared};
use tables::kinds::{LOCAL, PAUSE, TRAP};

// What the header declares.
#[tactic(auto, unfolding(crate::specs::Format::header))]
pub fn declared(b: &[u8]) -> Declared
    ensures { header_of result ≡ header b.now }
{
    Declared {
        version: two_bytes(b, 6),
        inputs: two_bytes(b, 8),
        outputs: two_bytes(b, 10),
        locals: two_bytes(b, 12),
    }
}

// What has been read after a good record.
#[tactic(auto, unfolding(crate::specs::Format::past))]
pub fn passed(r: Cursor, kind: u16, length: u16) -> Cursor
    requires { (length ≡ length_of kind) × (r.at < 65536) × (r.statements < 65536) × (r.pauses < 1024) × (r.locals < 1024) }
    ensures { sofar_of result ≡ past kind (sofar_of r) }
{
    Cursor {
        at: r.at + length as usize,
        statements: r.statements + 1,
        pauses: r.pauses + u16::from(kind == PAUSE),
        locals: r.locals + u16::from(kind == LOCAL),
    }
}

#[tactic(auto, using(crate::proofs::Scopes::added))]
fn with_local(scope: u64, kind: u16, s: u16) -> u64
    requires { kind ≡ 26 → s < 64 }
    ensures { bits result ≡ cond (eqb kind 26) (union (single s) (bits scope)) (bits scope) }
{
    if kind == LOCAL {
        (1u64 << s) | scope
    } else {
        scope
    }
}

// What stands around the children of a statement.
#[tactic(auto, unfolding(crate::specs::Format::inside))]
pub fn inner(c: Context, kind: u16, s: u16) -> Context
    requires { (0 < c.room) × (c.traps < 1024) × (c.nested < 1024) × (kind ≡ 26 → s < 64) }
    ensures { (around_of result ≡ inside kind s (around_of c)) × (result.room + 1 ≡ c.room) }
{
    Context {
        traps: c.traps + u16::from(kind == TRAP),
        nested: c.nested + u16::from(kind == LOCAL),
        scope: with_local(c.scope, kind, s),
        room: c.room - 1,
    }
}

// The operand that the table keeps.
#[tactic(auto, unfolding(tables::specs::Table::kept_operand))]
pub(crate) fn kept(kind: u16, operands: u16, operand: u16, pauses: u16) -> u16
    requires { operands ≡ operands_of kind }
    ensures { result ≡ kept_operand kind operand pauses }
{
    if kind == PAUSE {
        return pauses;
    }
    if operands == 1 { operand } else { 0 }
}
