// Whether two blocks are told alike under every input run, or a first shortest run that tells them apart. The pairs of states that runs
// reach are searched in the call's own frame; nothing is lent but the run.
#![tactic(auto)]

mod search;
mod written;

ghost use Rattle.std.specs.Prelude.{◌≡◌, ◌+◌, ◌≤◌, length};
ghost use Rattle.rules.specs.Statements.{Stmt};
ghost use Rattle.block.specs.Format.{Good};
ghost use Rattle.forms.specs.Forms.{At, Placed};
ghost use Rattle.reaction.specs.Outcomes.{Opened};
ghost use Rattle.pairs.specs.Blocks.{comparison};
ghost use Rattle.alike.specs.Calls.{try_both, front, Compared, Owed};

use crate::search::{Link, search_all};
use crate::written::write_run;
use block::whole::{Summary, read_block};
use refusals::{Refused, Why};
use tables::Table;

// Why two blocks are not compared: the first or the second is turned down, or the call.
#[derive(Clone, Copy, Debug, PartialEq, Eq)]
pub enum NotCompared {
    First(Refused),
    Second(Refused),
    Both(Why),
}

// The search, and its run written: PAIRS is the one refusal left.
fn compared(
    table: &Table,
    other: &Table,
    inputs: u16,
    outputs: u16,
    run: &mut [u8],
) -> Result<Option<usize>, NotCompared>
    requires inputs_bound { (inputs ≤ 6) × (inputs + outputs ≤ 64) × Placed table.now 0 × Placed other.now 0 }
    requires in_bounds { 1024 ≤ length run.old }
    ensures { (t u : Stmt) → At table.now 0 t
        → At other.now 0 u
        → Compared (comparison (record { inputs = inputs; outputs = outputs; body = t }) (record { inputs = inputs; outputs = outputs; body = u }))
        result run.old run.new }
{
    let mut links = [Link { parent: 0, set: 0 }; 1024];
    let found = search_all(table, other, inputs, outputs, &mut links).map_err(NotCompared::Both)?;
    let Some(last) = found else {
        return Ok(None);
    };
    Ok(Some(write_run(&links, last, run)))
}

// Two blocks that were read: INTERFACE, WIDE and ROOM, then the search.
fn tested(
    table: &Table,
    s: Summary,
    other: &Table,
    t: Summary,
    run: &mut [u8],
) -> Result<Option<usize>, NotCompared>
    requires { ((g : Good) × Opened table.now s g) × ((h : Good) × Opened other.now t h) }
    ensures { (g h : Good) → Opened table.now s g
        → Opened other.now t h
        → Owed (try_both g h (length run.old)) result run.old run.new }
{
    if s.inputs != t.inputs || s.outputs != t.outputs {
        return Err(NotCompared::Both(Why::Interface));
    }
    if 6 < s.inputs {
        return Err(NotCompared::Both(Why::Wide));
    }
    if run.len() < 1024 {
        return Err(NotCompared::Both(Why::Room));
    }
    compared(table, other, s.inputs, s.outputs, run)
}

// Tells whether two blocks are told alike in every instant under every input run from fresh. If not, the first in numeric order of the shortest
// runs that show it goes to the front of the lent bytes, one byte a set, and its size is told. 1 to 8 for the first block, then the second, 23, 24, 12, 25.
pub fn alike(first: &[u8], second: &[u8], run: &mut [u8]) -> Result<Option<usize>, NotCompared>
    ensures { Owed (front first.now second.now run.old) result run.old run.new }
{
    let mut table = Table::empty();
    let s = read_block(first, &mut table).map_err(NotCompared::First)?;
    let mut other = Table::empty();
    let t = read_block(second, &mut other).map_err(NotCompared::Second)?;
    tested(&table, s, &other, t, run)
}
