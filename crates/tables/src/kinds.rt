// The kinds of a statement's record, the two numbers that an exit has, and a number of the table as an index.
ghost use Rattle.std.specs.Prelude.{◌≡◌, cond, [], ◌∷◌, ◌<◌, eqb, Some};
ghost use Rattle.sets.specs.Numbers.{listed};
ghost use Rattle.rules.specs.Statements.{depth, code};
ghost use Rattle.tables.specs.Kinds.{shape, wide_shape, short, long, length_of};

// The kinds of "The block file", as numbers of a record and of the table.
pub const NOTHING: u16 = 16;

pub const PAUSE: u16 = 17;

pub const EMIT: u16 = 18;

pub const PRESENT: u16 = 19;

pub const SUSPEND: u16 = 20;

pub const SEQUENCE: u16 = 21;

pub const LOOP: u16 = 22;

pub const PARALLEL: u16 = 23;

pub const TRAP: u16 = 24;

pub const EXIT: u16 = 25;

pub const LOCAL: u16 = 26;

// Those that edition 2 has besides.
pub const HALT: u16 = 32;

pub const SUSTAIN: u16 = 33;

pub const AWAIT: u16 = 34;

pub const ABORT: u16 = 35;

// An exit's depth: the traps passed over before its own.
#[derive(Clone, Copy)]
pub struct Depth(pub u16);

// A completion code.
#[derive(Clone, Copy)]
pub struct Code(pub u32);

// The one conversion.
#[tactic(auto, unfolding(rules::specs::Statements::code))]
pub fn code_of(d: Depth) -> Code
    ensures { result.0 ≡ code (depth d.0) }
{
    Code((d.0 as u32) + 2)
}

// A number of the table as an index.
pub fn wide(x: u16) -> usize
    ensures { (result ≡ x) × (result < 65536) }
{
    x as usize
}

// What the records of a kind have: their length, how many operands, and how many children the statement has.
#[derive(Clone, Copy)]
pub struct Shape {
    pub length: u16,
    pub operands: u16,
    pub children: u16,
}

// No operand.
fn short(children: u16) -> Shape
    ensures { Some result ≡ short children }
{
    Shape {
        length: 4,
        operands: 0,
        children,
    }
}

// One operand, a signal or a depth.
fn long(children: u16) -> Shape
    ensures { Some result ≡ long children }
{
    Shape {
        length: 6,
        operands: 1,
        children,
    }
}

// Emit has no child, present two, suspend one.
fn under_signal(kind: u16) -> u16
    ensures { result ≡ cond (eqb kind 18) 0 (cond (eqb kind 19) 2 1) }
{
    match kind {
        EMIT => 0,
        PRESENT => 2,
        _ => 1,
    }
}

// Sequence and parallel have two children, loop and trap one.
#[tactic(auto, unfolding(sets::specs::Numbers::listed))]
fn in_turn(kind: u16) -> u16
    ensures { result ≡ cond (listed (21 ∷ 23 ∷ []) kind) 2 1 }
{
    match kind {
        SEQUENCE | PARALLEL => 2,
        _ => 1,
    }
}

// Length, operands and children of a record of either edition, by its kind, in the form that document 01 names for this place; no other kind is allowed.
#[tactic(auto, unfolding(crate::specs::Kinds::wide_shape, crate::specs::Kinds::shape, sets::specs::Numbers::listed))]
pub fn wide_shape_of(kind: u16) -> Option<Shape>
    ensures { result ≡ wide_shape kind }
{
    match kind {
        NOTHING..=PAUSE => Some(short(0)),
        EMIT..=SUSPEND => Some(long(under_signal(kind))),
        SEQUENCE..=TRAP => Some(short(in_turn(kind))),
        EXIT..=LOCAL => Some(long(kind - EXIT)),
        HALT => Some(short(0)),
        SUSTAIN..=AWAIT => Some(long(0)),
        ABORT => Some(long(1)),
        _ => None,
    }
}

// The same in edition 1, whose last kind is a local's.
#[tactic(auto, using(crate::proofs::Shapes::above_kinds, crate::proofs::Shapes::first_edition))]
pub fn shape_of(kind: u16) -> Option<Shape>
    ensures { result ≡ shape kind }
{
    if LOCAL < kind {
        return None;
    }
    wide_shape_of(kind)
}

// The length of a kind's records, and 0 for no kind.
#[tactic(auto, unfolding(crate::specs::Kinds::length_of))]
pub fn record_length(kind: u16) -> u16
    ensures { result ≡ length_of kind }
{
    shape_of(kind).map_or(0, |s| s.length)
}
