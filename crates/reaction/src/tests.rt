// The tests before the rules, in their written order: the block's 1 to 8, then STATE, OTHER BLOCK, CLASH with its pair, and INPUT. The table is the caller's, and stands
// for the block where all are passed.
ghost use Rattle.block.specs.Format.{Good};
ghost use Rattle.block.specs.Told.{Full};
ghost use Rattle.records.specs.StateRecord.{read_state};
ghost use Rattle.reaction.specs.Fronts as fronts;
ghost use Rattle.reaction.specs.Outcomes.{Opened, Meets, Tested};

use crate::{Given, Grounds, Stopped, wrong_inputs};
use block::whole::{Summary, read_block};
use records::clash::first_clash;
use records::state::{names_block, read_state};
use refusals::Why;
use tables::Table;

// From STATE on, for a block that was read.
fn at_state(table: &Table, summary: Summary, state: &[u8], given: Given) -> Result<Grounds, Stopped>
    requires { (g : Good) × Opened table.now summary g }
    ensures { (g : Good) → Opened table.now summary g
        → Meets (fronts.try_state g state.now given (read_state g.pauses state.now)) table.now result }
{
    let Some(held) = read_state(state, summary.pauses) else {
        return Err(Stopped::Refused(Why::State.at(0)));
    };
    if !names_block(state, summary.version, summary.statements) {
        return Err(Stopped::Refused(Why::OtherBlock.at(0)));
    }
    let active = held.active;
    let pair = first_clash(table, summary.statements, summary.pauses, active);
    if let Some((m, n)) = pair {
        return Err(Stopped::Clash(m, n));
    }
    if wrong_inputs(summary.inputs, given) {
        return Err(Stopped::Refused(Why::Input.at(0)));
    }
    Ok(Grounds {
        summary,
        phase: held.phase,
        active,
    })
}

// All of them, for the caller's bytes. Where they are passed, the table stands for the block, and phase and active pauses for the state.
pub fn front(
    block: &[u8],
    state: &[u8],
    given: Given,
    table: &mut Table,
) -> Result<Grounds, Stopped>
    requires { Full table.old }
    ensures { Tested (fronts.front block.now state.now given) table.new result }
{
    let summary = read_block(block, table)?;
    at_state(table, summary, state, given)
}
