// The maze of a block's first instant: the tests in their written order, then the rounds. That the rounds tell who wins is the maze's theorem.
ghost use Rattle.std.specs.Prelude.{◌≡◌, true, false, ◌+◌, ◌≤◌};
ghost use Rattle.sets.specs.Words.{bits};
ghost use Rattle.block.specs.Format.{Good};
ghost use Rattle.records.specs.StateRecord.{undeclared_input};
ghost use Rattle.reaction.specs.Instants.{block_of};
ghost use Rattle.reaction.specs.Outcomes.{Opened};
ghost use Rattle.mazes.specs.Mazes.{of_form};
ghost use Rattle.maze.specs.Views as views;
ghost use Rattle.maze.specs.Views.{try_inputs, Shows, Views, EndsOf};

use crate::Rooms;
use crate::form::in_form;
use block::whole::{Summary, read_block};
use evaluate::rounds::{all_heard, below, react};
use records::bits::input_over;
use records::state::Phase;
use refusals::{Refused, Why};
use tables::Table;
use words::events::Heard;

// Who wins, loses and draws: the inputs as they are heard, the outputs as they are marked, and the rest of the declared signals.
fn ends_of(inputs: u16, outputs: u16, heard: Heard, present: u64, absent: u64) -> Rooms
    requires { inputs + outputs ≤ 64 }
    ensures { EndsOf inputs outputs heard present absent result }
{
    let all = below(inputs + outputs);
    let winning = heard.present | present;
    let losing = heard.absent | absent;
    Rooms {
        winning,
        losing,
        drawn: all & (all ^ (winning | losing)),
    }
}

// The rooms of a block of the form.
fn rooms_of(table: &Table, s: Summary, inputs: u64) -> Rooms
    requires { (g : Good) × Opened table.now s g }
    ensures { (g : Good) → Opened table.now s g
        → undeclared_input g.header.inputs inputs ≡ false → of_form g.body ≡ true → Shows (block_of g) (bits inputs) result }
{
    let first = s.inputs;
    let outputs = s.outputs;
    let heard = all_heard(first, inputs);
    let r = react(table, Phase::Fresh, [0, 0], first, outputs, heard);
    ends_of(first, outputs, heard, r.marks.present, r.marks.absent)
}

// After the reading: INPUT, FORM, then the rooms.
fn past_reading(table: &Table, s: Summary, inputs: u64) -> Result<Rooms, Refused>
    requires { (g : Good) × Opened table.now s g }
    ensures { (g : Good) → Opened table.now s g → Views (try_inputs g inputs) result }
{
    if input_over(s.inputs, inputs) {
        return Err(Why::Input.at(0));
    }
    if in_form(table, s.statements) {
        return Ok(rooms_of(table, s, inputs));
    }
    Err(Why::Form.at(0))
}

// Which rooms of the maze win, lose and draw, for the caller's block and input set.
pub fn maze(block: &[u8], inputs: u64) -> Result<Rooms, Refused>
    ensures { Views (views.view block.now inputs) result }
{
    let mut table = Table::empty();
    let s = read_block(block, &mut table)?;
    past_reading(&table, s, inputs)
}
