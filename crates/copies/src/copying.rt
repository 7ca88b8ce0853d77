// The records of a doubled statement, written one after the other from the table.
ghost use Rattle.std.specs.Prelude.{◌≡◌, cond, ℕ, ◌+◌, ◌<◌, eqb, get_or, length};
ghost use Rattle.rules.specs.Statements.{Stmt};
ghost use Rattle.copies.specs.Nodes.{Lies};
ghost use Rattle.copies.specs.Copying.{names_of, new_operand, names_in, Writes, Copied};

use crate::nodes::{Node, node_at};
use tables::Table;
use tables::kinds::{EMIT, LOCAL, PRESENT, SEQUENCE, SUSPEND, wide};
use writing::put_record;

// Where the next record is written, and the next local's number.
#[derive(Clone, Copy)]
pub struct Spot {
    pub to: usize,
    pub next: u16,
}

// A signal's name.
fn name_of(names: [u16; 64], s: u16) -> u16
    ensures { result ≡ get_or names s 0 }
{
    names.get(wide(s)).copied().unwrap_or(0)
}

// A local declares the next number, other signals go by their names, and a depth stays.
fn new_operand(kind: u16, operand: u16, names: [u16; 64], next: u16) -> u16
    ensures { result ≡ new_operand kind operand (names_of names) next }
{
    match kind {
        LOCAL => next,
        EMIT | PRESENT | SUSPEND => name_of(names, operand),
        _ => operand,
    }
}

// The names inside a statement: a local's signal has its new number there.
fn names_inside(names: [u16; 64], kind: u16, operand: u16, next: u16) -> [u16; 64]
    ensures { (kind ≡ 26 → operand < 64) → names_of result ≡ names_in kind operand (names_of names) next }
{
    let mut inner = names;
    if kind == LOCAL && operand < 64 {
        inner[wide(operand)] = next;
    }
    inner
}

fn next_inside(kind: u16, next: u16) -> u16
    requires { next < 65535 }
    ensures { result ≡ next + cond (eqb kind 26) 1 0 }
{
    next + u16::from(kind == LOCAL)
}

// A statement's record and those below it. A loop's body is written twice, below a sequence of its own; the second copy begins with the
// names that the first began with.
pub(crate) fn put_copy(
    table: &Table,
    at: usize,
    names: [u16; 64],
    spot: Spot,
    out: &mut [u8],
) -> Spot
    requires { Writes table.now at spot (length out.old) }
    ensures { (t : Stmt) (j : ℕ) → Lies table.now at t
        → Copied t (names_of names) j spot result out.old out.new }
{
    let kind = table.kinds[at];
    let operand = table.operands[at];
    let next = spot.next;
    let to = put_record(out, spot.to, kind, new_operand(kind, operand, names, next));
    let here = Spot { to, next };
    match node_at(table, at) {
        Node::Leaf => here,
        Node::Over(p) => {
            let inner = names_inside(names, kind, operand, next);
            let below = Spot {
                to,
                next: next_inside(kind, next),
            };
            put_copy(table, p, inner, below, out)
        }
        Node::Twice(p) => {
            let begun = put_record(out, to, SEQUENCE, 0);
            let first = Spot { to: begun, next };
            let half = put_copy(table, p, names, first, out);
            put_copy(table, p, names, half, out)
        }
        Node::Joins(p, q) => {
            let half = put_copy(table, p, names, here, out);
            put_copy(table, q, names, half, out)
        }
    }
}
