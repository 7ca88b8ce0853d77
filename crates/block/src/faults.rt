// The tests that a record goes through, and the lowest number among those that fail.
ghost use Rattle.std.specs.Prelude.{◌≡◌, not, ◌&&◌, ◌+◌, ◌≤◌, ◌<◌, ltb, leb, eqb, length};
ghost use Rattle.sets.specs.Words.{bits};
ghost use Rattle.block.specs.Format.{declared_here, over_limit, wrong_signal, wrong_exit, fault_as, statement_fault, header_fault_in, header};
ghost use Rattle.block.specs.Told.{header_of, sofar_of, around_of, tested};

use crate::records::{broken, two_bytes};
use crate::{Context, Cursor, Declared};
use refusals::{Refused, Why};
use tables::kinds::{Depth, EMIT, EXIT, LOCAL, PAUSE, PRESENT, SUSPEND, TRAP, record_length};

// A local is in scope: its bit is set.
#[tactic(auto, using(sets::proofs::Words::bits_high), unfolding(sets::specs::Words::bits))]
fn in_scope(scope: u64, s: u16) -> bool
    ensures { result ≡ bits scope s }
{
    s < 64 && (scope >> s) % 2 == 1
}

// The signal is an input, an output, or a local in whose body the statement is.
fn declared_here(d: Declared, c: Context, s: u16) -> bool
    requires { d.inputs + d.outputs ≤ 64 }
    ensures { result ≡ declared_here (header_of d) (around_of c) s }
{
    s < d.inputs + d.outputs || in_scope(c.scope, s)
}

// An emit is of an output or of a local in scope.
fn emit_wrong(d: Declared, c: Context, s: u16) -> bool
    requires { d.inputs + d.outputs ≤ 64 }
    ensures { result ≡ not (leb d.inputs s && declared_here (header_of d) (around_of c) s) }
{
    s < d.inputs || !declared_here(d, c, s)
}

// A local is declared by the header, and its number is the next.
fn local_wrong(d: Declared, r: Cursor, s: u16) -> bool
    requires { d.inputs + d.outputs + d.locals ≤ 64 }
    ensures { result ≡ not (ltb r.locals d.locals && eqb s (d.inputs + d.outputs + r.locals)) }
{
    d.locals <= r.locals || s != d.inputs + d.outputs + r.locals
}

#[tactic(auto, unfolding(crate::specs::Format::wrong_signal))]
fn signal_wrong(d: Declared, c: Context, r: Cursor, kind: u16, s: u16) -> bool
    requires { d.inputs + d.outputs + d.locals ≤ 64 }
    ensures { result ≡ wrong_signal (header_of d) (around_of c) (sofar_of r) kind s }
{
    match kind {
        EMIT => emit_wrong(d, c, s),
        PRESENT | SUSPEND => !declared_here(d, c, s),
        LOCAL => local_wrong(d, r, s),
        _ => false,
    }
}

#[tactic(auto, unfolding(crate::specs::Format::over_limit))]
fn limit_passed(c: Context, r: Cursor, kind: u16) -> bool
    ensures { result ≡ over_limit c.room (around_of c) (sofar_of r) kind }
{
    if c.room == 0 || 512 <= r.statements {
        return true;
    }
    match kind {
        PAUSE => 128 <= r.pauses,
        TRAP => 16 <= c.traps,
        LOCAL => 6 <= c.nested,
        _ => false,
    }
}

// An exit's depth is below the number of enclosing traps.
#[tactic(auto, unfolding(crate::specs::Format::wrong_exit))]
fn exit_wrong(c: Context, kind: u16, d: Depth) -> bool
    ensures { result ≡ wrong_exit (around_of c) kind d.0 }
{
    kind == EXIT && c.traps <= d.0
}

// A record as one of that kind: turned down by the first test that fails.
pub fn fault_as(b: &[u8], d: Declared, c: Context, r: Cursor, kind: u16) -> Result<(), Refused>
    requires b_len_bound { length b.now ≤ 3086 }
    requires at_in_bounds { r.at < length b.now }
    requires locals_bound { d.inputs + d.outputs + d.locals ≤ 64 }
    ensures { result ≡ tested (fault_as c.room b.now (header_of d) (around_of c) (sofar_of r) kind) r.at }
{
    let at = r.at;
    if broken(b, at) {
        return Err(Why::Broken.at(at));
    }
    if record_length(kind) != two_bytes(b, at) {
        return Err(Why::Kind.at(at));
    }
    if limit_passed(c, r, kind) {
        return Err(Why::Limit.at(at));
    }
    let operand = two_bytes(b, at + 4);
    if signal_wrong(d, c, r, kind, operand) {
        return Err(Why::Signal.at(at));
    }
    if exit_wrong(c, kind, Depth(operand)) {
        return Err(Why::Exit.at(at));
    }
    Ok(())
}

// The record of a due statement.
pub(crate) fn statement_fault(b: &[u8], d: Declared, c: Context, r: Cursor) -> Result<(), Refused>
    requires b_len_bound { length b.now ≤ 3086 }
    requires locals_bound { d.inputs + d.outputs + d.locals ≤ 64 }
    ensures { result ≡ tested (statement_fault c.room b.now (header_of d) (around_of c) (sofar_of r)) r.at }
{
    let at = r.at;
    if b.len() <= at {
        return Err(Why::Shape.at(at));
    }
    let kind = two_bytes(b, at + 2);
    fault_as(b, d, c, r, kind)
}

// More than 64 signals are declared.
fn signals_passed(inputs: u16, outputs: u16, locals: u16) -> bool
    ensures { result ≡ ltb 64 (inputs + outputs + locals) }
{
    64 < inputs as u32 + outputs as u32 + locals as u32
}

// The header where that edition is due, turned down at place 0.
pub fn header_fault(b: &[u8], edition: u16) -> Result<(), Refused>
    ensures { result ≡ tested (header_fault_in edition b.now) 0 }
{
    if broken(b, 0) {
        return Err(Why::Broken.at(0));
    }
    if two_bytes(b, 2) != 1 || two_bytes(b, 0) != 14 {
        return Err(Why::Kind.at(0));
    }
    if two_bytes(b, 4) != edition {
        return Err(Why::Edition.at(0));
    }
    if signals_passed(two_bytes(b, 8), two_bytes(b, 10), two_bytes(b, 12)) {
        return Err(Why::Limit.at(0));
    }
    Ok(())
}
