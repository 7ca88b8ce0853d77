// The text of a statement, put piece by piece from the table.
ghost use Rattle.std.specs.Prelude.{◌≡◌, ◌≤◌, ◌<◌, length};
ghost use Rattle.rules.specs.Statements.{Stmt};
ghost use Rattle.write_text.specs.Pieces.{Puts};
ghost use Rattle.write_text.specs.Spots.{first_word, middle_word, last_word, bare, first_level, second_level, inside, opening_text, closing_text, between_text, statement_text, Stands, Asks};

use crate::bytes::{put_row, put_word};
use crate::names::{closing_name, opening_name};
use tables::Table;
use tables::kinds::{
    EMIT, EXIT, LOCAL, LOOP, NOTHING, PARALLEL, PAUSE, PRESENT, SEQUENCE, SUSPEND, TRAP,
};
use tables::loops::second_at;

// What is due: a basic statement, a sequence of them, or any statement.
#[derive(Clone, Copy, PartialEq, Eq)]
pub enum Level {
    Basic,
    Sequence,
    Whole,
}

// Where a statement is put: the place of its first byte; what is due there; how many constructs are open and how many traps stand around
// it; and the block's inputs and outputs.
#[derive(Clone, Copy)]
pub struct Spot {
    pub to: usize,
    pub level: Level,
    pub indent: u16,
    pub traps: u16,
    pub inputs: u16,
    pub outputs: u16,
}

// A statement's first word, with the blank before a name.
#[tactic(auto, unfolding(crate::specs::Spots::first_word))]
fn first_word(kind: u16) -> &'static [u8]
    requires le_kind { 16 ≤ kind }
    requires kind_bound { kind ≤ 26 }
    ensures value { result.now ≡ first_word kind }
    ensures upper_bound { length result.now ≤ 8 }
{
    match kind {
        NOTHING => b"nothing",
        PAUSE => b"pause",
        EMIT => b"emit ",
        PRESENT => b"present ",
        SUSPEND => b"suspend",
        LOOP => b"loop",
        TRAP => b"trap ",
        EXIT => b"exit ",
        LOCAL => b"signal ",
        _ => b"[",
    }
}

// The word behind its first name.
#[tactic(auto, unfolding(crate::specs::Spots::middle_word, sets::specs::Numbers::listed))]
fn middle_word(kind: u16) -> &'static [u8]
    ensures value { result.now ≡ middle_word kind }
    ensures upper_bound { length result.now ≤ 8 }
{
    match kind {
        PRESENT => b" then",
        TRAP | LOCAL => b" in",
        _ => b"",
    }
}

// Its last word.
#[tactic(auto, unfolding(crate::specs::Spots::last_word, sets::specs::Numbers::listed))]
fn last_word(kind: u16) -> &'static [u8]
    ensures value { result.now ≡ last_word kind }
    ensures upper_bound { length result.now ≤ 8 }
{
    match kind {
        PRESENT | LOOP | TRAP | LOCAL => b"end",
        SUSPEND => b"when ",
        SEQUENCE | PARALLEL => b"]",
        _ => b"",
    }
}

// A sequence or a parallel that needs no brackets here.
#[tactic(auto, unfolding(crate::specs::Spots::bare))]
fn bare(kind: u16, level: Level) -> bool
    ensures { result ≡ bare kind level }
{
    match level {
        Level::Basic => false,
        Level::Sequence => kind == SEQUENCE,
        Level::Whole => kind == SEQUENCE || kind == PARALLEL,
    }
}

// What stands before a statement's first child, or is all of it.
fn put_opening(out: &mut [u8], spot: Spot, kind: u16, operand: u16) -> usize
    requires le_kind { 16 ≤ kind }
    requires kind_bound { kind ≤ 26 }
    requires to_bound { spot.to ≤ 2000000 }
    ensures { Puts out.old out.new spot.to result (opening_text spot kind operand) }
{
    if bare(kind, spot.level) {
        return spot.to;
    }
    let first = first_word(kind);
    let name = opening_name(kind, operand, spot.traps, spot.inputs, spot.outputs);
    put_row(out, spot.to, spot.indent, first, name, middle_word(kind))
}

// What stands behind its last child.
fn put_closing(out: &mut [u8], to: usize, spot: Spot, kind: u16, operand: u16) -> usize
    requires { to ≤ 2000000 }
    ensures { Puts out.old out.new to result (closing_text spot kind operand) }
{
    if bare(kind, spot.level) {
        return to;
    }
    let last = last_word(kind);
    let name = closing_name(kind, operand, spot.inputs, spot.outputs);
    put_row(out, to, spot.indent, last, name, b"")
}

// What stands between two children: `else`, `||` or a semicolon.
fn put_between(out: &mut [u8], to: usize, kind: u16, outer: u16, inner: u16) -> usize
    requires { to ≤ 2000000 }
    ensures { Puts out.old out.new to result (between_text kind outer inner) }
{
    match kind {
        PRESENT => put_row(out, to, outer, b"else", 0, b""),
        PARALLEL => put_row(out, to, inner, b"||", 0, b""),
        _ => put_word(out, to, b";"),
    }
}

// What is due as the first child and as the second.
#[tactic(auto, unfolding(crate::specs::Spots::first_level))]
fn first_level(kind: u16) -> Level
    ensures { result ≡ first_level kind }
{
    match kind {
        SEQUENCE => Level::Basic,
        PARALLEL => Level::Sequence,
        _ => Level::Whole,
    }
}

#[tactic(auto, unfolding(crate::specs::Spots::second_level))]
fn second_level(kind: u16) -> Level
    ensures { result ≡ second_level kind }
{
    if kind == SEQUENCE {
        Level::Sequence
    } else {
        Level::Whole
    }
}

// A child's spot.
fn inside(spot: Spot, kind: u16, level: Level, to: usize) -> Spot
    requires indent_bound { spot.indent < 1000 }
    requires traps_bound { spot.traps < 1000 }
    ensures { result ≡ inside spot kind level to }
{
    Spot {
        to,
        level,
        indent: spot.indent + u16::from(!bare(kind, spot.level)),
        traps: spot.traps + u16::from(kind == TRAP),
        ..spot
    }
}

// A statement and all below it, and the place behind it.
pub(crate) fn put_statement(table: &Table, at: usize, spot: Spot, out: &mut [u8]) -> usize
    requires { Asks table.now at spot }
    ensures { (t : Stmt) → Stands table.now at t
        → Puts out.old out.new spot.to result (statement_text spot t) }
{
    let kind = table.kinds[at];
    let operand = table.operands[at];
    let begun = put_opening(out, spot, kind, operand);
    match kind {
        PRESENT | SEQUENCE | PARALLEL => {
            let first = inside(spot, kind, first_level(kind), begun);
            let half = put_statement(table, at + 1, first, out);
            let next = put_between(out, half, kind, spot.indent, first.indent);
            let second = inside(spot, kind, second_level(kind), next);
            let last = second_at(table, at);
            let done = put_statement(table, last, second, out);
            put_closing(out, done, spot, kind, operand)
        }
        SUSPEND | LOOP | TRAP | LOCAL => {
            let body = inside(spot, kind, Level::Whole, begun);
            let done = put_statement(table, at + 1, body, out);
            put_closing(out, done, spot, kind, operand)
        }
        _ => begun,
    }
}
