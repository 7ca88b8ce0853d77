// The reading of a block of edition 2, and what its conversion will take. Nothing is stored: every refusal is known before a byte is written.
ghost use Rattle.std.specs.Prelude.{◌≡◌, cond, ◌&&◌, ◌+◌, ◌≤◌, ◌<◌, max, eqb, length, Some};
ghost use Rattle.sets.specs.Words.{bits};
ghost use Rattle.block.specs.Told.{header_of, sofar_of, around_of, Ready};
ghost use Rattle.converting.specs.Format.{due, read₂};
ghost use Rattle.convert.specs.Scans.{tested_as, coded_as, FaultTold, sized_as, alone_sizes, onto_sizes, abort_sizes, around_sizes, both_sizes, between_sizes};
ghost use Rattle.convert.specs.Scans.{SmallSizes, OfNone, OfOne, OfTwo, Scans, over_limits, Ends, ScanTold};

use block::faults::{fault_as, header_fault};
use block::records::two_bytes;
use block::steps::{declared, inner, passed};
use block::{Context, Cursor, Declared};
use code_sets::has_code;
use refusals::{Refused, Why};
use tables::codes::codes_for;
use tables::kinds::wide_shape_of;

// What the conversion of a statement takes: statements, pauses, the longest path, nested traps and locals, and the bytes of its records.
#[derive(Clone, Copy)]
pub struct Sizes {
    pub statements: usize,
    pub pauses: usize,
    pub path: usize,
    pub traps: usize,
    pub nested: usize,
    pub bytes: usize,
}

// A statement that was read: what had been read after it, its codes, the offset of its lowest endless loop, if it has one, and what its conversion takes.
#[derive(Clone, Copy)]
pub struct Measured {
    pub after: Cursor,
    pub codes: u32,
    pub endless: Option<usize>,
    pub sizes: Sizes,
}

// What a block declares and how many bytes its conversion has.
#[derive(Clone, Copy)]
pub struct Scanned {
    pub declared: Declared,
    pub size: usize,
}

// The kind by whose rules a record is tested: halt as nothing, sustain as emit, await as present, abort as suspend.
fn tested_as(kind: u16) -> u16
    ensures { result ≡ tested_as kind }
{
    match kind {
        32 => 16,
        33 => 18,
        34 => 19,
        35 => 20,
        _ => kind,
    }
}

// The kind whose codes a statement has: halt, sustain and await those of a pause, abort those of a suspend.
fn coded_as(kind: u16) -> u16
    ensures { result ≡ coded_as kind }
{
    match kind {
        32..=34 => 17,
        35 => 20,
        _ => kind,
    }
}

// The tests of a due record.
fn stands(b: &[u8], d: Declared, c: Context, r: Cursor) -> Result<(), Refused>
    requires b_len_bound { length b.now ≤ 3086 }
    requires locals_bound { d.inputs + d.outputs + d.locals ≤ 64 }
    ensures { FaultTold (due c.room b.now (header_of d) (around_of c) (sofar_of r)) r.at result }
{
    let at = r.at;
    if b.len() <= at {
        return Err(Why::Shape.at(at));
    }
    let kind = two_bytes(b, at + 2);
    fault_as(b, d, c, r, tested_as(kind))
}

fn longer(a: usize, b: usize) -> usize
    ensures { result ≡ max a b }
{
    if a < b { b } else { a }
}

// A statement without locals and without any below it.
fn sized(statements: usize, pauses: usize, path: usize, traps: usize, bytes: usize) -> Sizes
    ensures { result ≡ sized_as statements pauses path traps bytes }
{
    Sizes {
        statements,
        pauses,
        path,
        traps,
        nested: 0,
        bytes,
    }
}

// Halt takes two statements, sustain four, await seven.
fn alone_sizes(kind: u16) -> Sizes
    ensures { result ≡ alone_sizes kind }
{
    match kind {
        17 => sized(1, 1, 1, 0, 4),
        18 => sized(1, 0, 1, 0, 6),
        25 => sized(1, 0, 1, 0, 6),
        32 => sized(2, 1, 2, 0, 8),
        33 => sized(4, 1, 3, 0, 18),
        34 => sized(7, 1, 5, 1, 32),
        _ => sized(1, 0, 1, 0, 4),
    }
}

// One statement around another.
fn onto(p: Sizes, traps: usize, nested: usize, bytes: usize) -> Sizes
    requires { SmallSizes p × (traps ≤ 52) × (nested ≤ 52) × (bytes ≤ 52) }
    ensures { result ≡ onto_sizes p traps nested bytes }
{
    Sizes {
        statements: 1 + p.statements,
        pauses: p.pauses,
        path: 1 + p.path,
        traps: traps + p.traps,
        nested: nested + p.nested,
        bytes: bytes + p.bytes,
    }
}

// An abort takes eleven besides its body, four of them above it.
fn abort_sizes(p: Sizes) -> Sizes
    requires { SmallSizes p }
    ensures { result ≡ abort_sizes p }
{
    Sizes {
        statements: 11 + p.statements,
        pauses: 1 + p.pauses,
        path: longer(4 + p.path, 6),
        traps: 1 + p.traps,
        nested: p.nested,
        bytes: 52 + p.bytes,
    }
}

fn around_sizes(kind: u16, p: Sizes) -> Sizes
    requires { SmallSizes p }
    ensures { result ≡ around_sizes kind p }
{
    match kind {
        20 => onto(p, 0, 0, 6),
        24 => onto(p, 1, 0, 4),
        26 => onto(p, 0, 1, 6),
        35 => abort_sizes(p),
        _ => onto(p, 0, 0, 4),
    }
}

// Two statements and the one above both, whose record has so many bytes.
fn both_sizes(own: usize, p: Sizes, q: Sizes) -> Sizes
    requires { (own ≤ 52) × SmallSizes p × SmallSizes q }
    ensures { result ≡ both_sizes own p q }
{
    Sizes {
        statements: 1 + p.statements + q.statements,
        pauses: p.pauses + q.pauses,
        path: 1 + longer(p.path, q.path),
        traps: longer(p.traps, q.traps),
        nested: longer(p.nested, q.nested),
        bytes: own + p.bytes + q.bytes,
    }
}

fn between_sizes(kind: u16, p: Sizes, q: Sizes) -> Sizes
    requires { SmallSizes p × SmallSizes q }
    ensures { result ≡ between_sizes kind p q }
{
    match kind {
        19 => both_sizes(6, p, q),
        _ => both_sizes(4, p, q),
    }
}

// A statement without any below it.
fn of_none(kind: u16, operand: u16, after: Cursor) -> Measured
    ensures { OfNone kind operand after result }
{
    Measured {
        after,
        codes: codes_for(coded_as(kind), operand, 0, 0),
        endless: None,
        sizes: alone_sizes(kind),
    }
}

// The statement itself where it is a loop whose body may complete with 0, else what was found below.
fn lowest(kind: u16, body: u32, at: usize, below: Option<usize>) -> Option<usize>
    ensures { result ≡ cond (eqb kind 22 && bits body 0) (Some at) below }
{
    if kind == 22 && has_code(body, 0) {
        Some(at)
    } else {
        below
    }
}

// A statement whose record is at a place, and the one below it.
fn of_one(kind: u16, operand: u16, at: usize, p: Measured) -> Measured
    requires { SmallSizes p.sizes }
    ensures { OfOne kind operand at p result }
{
    Measured {
        after: p.after,
        codes: codes_for(coded_as(kind), operand, p.codes, 0),
        endless: lowest(kind, p.codes, at, p.endless),
        sizes: around_sizes(kind, p.sizes),
    }
}

// A statement and the two below it.
fn of_two(kind: u16, operand: u16, p: Measured, q: Measured) -> Measured
    requires { SmallSizes p.sizes × SmallSizes q.sizes }
    ensures { OfTwo kind operand p q result }
{
    Measured {
        after: q.after,
        codes: codes_for(coded_as(kind), operand, p.codes, q.codes),
        endless: p.endless.or(q.endless),
        sizes: between_sizes(kind, p.sizes, q.sizes),
    }
}

// A statement with its children, the room on the path falling.
fn scan_at(b: &[u8], d: Declared, c: Context, r: Cursor) -> Result<Measured, Refused>
    requires { Ready (length b.now) d c r × (0 < r.at) }
    ensures { Scans (header_of d) (sofar_of r) (read₂ c.room b.now (header_of d) (around_of c) (sofar_of r)) result }
{
    let at = r.at;
    stands(b, d, c, r)?;
    let kind = two_bytes(b, at + 2);
    let operand = two_bytes(b, at + 4);
    // The tests let only a kind with a shape pass.
    let shape = wide_shape_of(kind).unwrap();
    let like = tested_as(kind);
    let next = passed(r, like, shape.length);
    let around = inner(c, like, operand);
    if shape.children == 0 {
        return Ok(of_none(kind, operand, next));
    }
    let first = scan_at(b, d, around, next)?;
    if shape.children == 1 {
        return Ok(of_one(kind, operand, at, first));
    }
    let second = scan_at(b, d, around, first.after)?;
    Ok(of_two(kind, operand, first, second))
}

// The limits of the result: at most 512 statements, 128 pauses, 64 on a path, 16 nested traps and 6 nested locals.
fn over_limits(s: Sizes) -> bool
    ensures { result ≡ over_limits s }
{
    if 512 < s.statements {
        return true;
    }
    if 128 < s.pauses {
        return true;
    }
    if 16 < s.traps {
        return true;
    }
    if 6 < s.nested {
        return true;
    }
    64 < s.path
}

// After the tree: no bytes left, all locals declared, no endless loop, and the result within the limits.
fn ended(b: &[u8], d: Declared, m: Measured) -> Result<Scanned, Refused>
    requires { (m.sizes.bytes ≤ 26624) × (d.inputs + d.outputs + d.locals ≤ 64) }
    ensures { Ends b.now d m result }
{
    let place = m.after.at;
    if place != b.len() || m.after.locals != d.locals {
        return Err(Why::Shape.at(place));
    }
    if let Some(place) = m.endless {
        return Err(Why::Loop.at(place));
    }
    if over_limits(m.sizes) {
        return Err(Why::Limit.at(0));
    }
    Ok(Scanned {
        declared: d,
        size: 14 + m.sizes.bytes,
    })
}

// Reads a block of edition 2: what its conversion takes, or the refusal that the conversion gets, 4 at place 0 where the result passes a limit.
pub fn scan(b: &[u8]) -> Result<Scanned, Refused>
    ensures { ScanTold b.now result }
{
    if 3086 < b.len() {
        return Err(Why::Limit.at(0));
    }
    header_fault(b, 2)?;
    let d = declared(b);
    let c = Context {
        traps: 0,
        nested: 0,
        scope: 0,
        room: 64,
    };
    let r = Cursor {
        at: 14,
        statements: 0,
        pauses: 0,
        locals: 0,
    };
    let tree = scan_at(b, d, c, r)?;
    ended(b, d, tree)
}
