// A statement of the table by what stands below it.
ghost use Rattle.rules.specs.Statements.{Stmt};
ghost use Rattle.copies.specs.Nodes.{Lies, Somewhere, Parts};

use tables::Table;
use tables::kinds::{LOCAL, LOOP, PARALLEL, PRESENT, SEQUENCE, SUSPEND, TRAP};
use tables::loops::second_at;

// No child, one child, a loop's child that is copied twice, or two children, each by its number.
#[derive(Clone, Copy)]
pub enum Node {
    Leaf,
    Over(usize),
    Twice(usize),
    Joins(usize, usize),
}

pub(crate) fn node_at(table: &Table, at: usize) -> Node
    requires { Somewhere table.now at }
    ensures { (t : Stmt) → Lies table.now at t
        → Parts table.now at t result }
{
    match table.kinds[at] {
        PRESENT | SEQUENCE | PARALLEL => Node::Joins(at + 1, second_at(table, at)),
        SUSPEND | TRAP | LOCAL => Node::Over(at + 1),
        LOOP => Node::Twice(at + 1),
        _ => Node::Leaf,
    }
}
