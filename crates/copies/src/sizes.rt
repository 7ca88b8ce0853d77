// What the copy of a statement takes: measured before a byte is written, since a refusal leaves them all.
ghost use Rattle.std.specs.Prelude.{◌≡◌, ◌+◌, max};
ghost use Rattle.rules.specs.Statements.{Stmt};
ghost use Rattle.copies.specs.Nodes.{Lies, Somewhere};
ghost use Rattle.copies.specs.Sizes.{capped, own_size, onto_size, side_size, Measured};

use crate::nodes::{Node, node_at};
use tables::Table;
use tables::kinds::{EMIT, EXIT, LOCAL, LOOP, PAUSE, PRESENT, SUSPEND};

// Statements, pauses, locals, the longest path and bytes, each at most 4,000: loops nested in each other double them at each level,
// and no sum may wrap.
#[derive(Clone, Copy)]
pub struct Size {
    pub statements: u16,
    pub pauses: u16,
    pub locals: u16,
    pub path: u16,
    pub bytes: u16,
}

fn plus(a: u16, b: u16) -> u16
    ensures { result ≡ capped (a + b) }
{
    a.saturating_add(b).min(4000)
}

// A statement's own records: a loop's is followed by that of the sequence in its body.
fn own_size(kind: u16) -> Size
    ensures { result ≡ own_size kind }
{
    let plain = Size {
        statements: 1,
        pauses: 0,
        locals: 0,
        path: 1,
        bytes: 4,
    };
    match kind {
        PAUSE => Size { pauses: 1, ..plain },
        EMIT | PRESENT | SUSPEND | EXIT => Size { bytes: 6, ..plain },
        LOOP => Size {
            statements: 2,
            path: 2,
            bytes: 8,
            ..plain
        },
        LOCAL => Size {
            locals: 1,
            bytes: 6,
            ..plain
        },
        _ => plain,
    }
}

// A statement above what its children take.
fn onto(own: Size, below: Size) -> Size
    ensures { result ≡ onto_size own below }
{
    Size {
        statements: plus(own.statements, below.statements),
        pauses: plus(own.pauses, below.pauses),
        locals: plus(own.locals, below.locals),
        path: plus(own.path, below.path),
        bytes: plus(own.bytes, below.bytes),
    }
}

// Two children side by side: only the longer path counts.
fn side(first: Size, second: Size) -> Size
    ensures { result ≡ side_size first second }
{
    Size {
        statements: plus(first.statements, second.statements),
        pauses: plus(first.pauses, second.pauses),
        locals: plus(first.locals, second.locals),
        path: first.path.max(second.path),
        bytes: plus(first.bytes, second.bytes),
    }
}

// The child of a loop counts twice.
pub(crate) fn size_at(table: &Table, at: usize) -> Size
    requires { Somewhere table.now at }
    ensures { (t : Stmt) → Lies table.now at t → Measured t result }
{
    let own = own_size(table.kinds[at]);
    match node_at(table, at) {
        Node::Leaf => own,
        Node::Over(p) => onto(own, size_at(table, p)),
        Node::Twice(p) => {
            let body = size_at(table, p);
            onto(own, side(body, body))
        }
        Node::Joins(p, q) => { onto(own, side(size_at(table, p), size_at(table, q))) }
    }
}
