// The answer to a question about an instant.
ghost use Rattle.std.specs.Prelude.{◌≡◌, true, not, ◌&&◌, List, ◌+◌, ◌≤◌, ◌<◌};
ghost use Rattle.sets.specs.Numbers.{lowest};
ghost use Rattle.sets.specs.Words.{bits, set_of};
ghost use Rattle.rules.specs.Statements.{Block, Stmt, statements, numbered};
ghost use Rattle.rules.specs.Events.{Status, present, absent, event};
ghost use Rattle.rules.specs.Rounds.{outputs_with};
ghost use Rattle.rules.specs.Taken.{every, taken};
ghost use Rattle.rules.specs.Reasons.{is_emit, cut_off, where_so, reason_of};
ghost use Rattle.words.specs.Words.{event_of, hearing_of};
ghost use Rattle.forms.specs.Forms.{At, Placed, task};
ghost use Rattle.evaluate.specs.Reacts.{state_of};
ghost use Rattle.reasons.specs.Taking.{wanted_of, named_of, open_emit, asked_of};

use crate::lowest::{lowest_cut, lowest_marked};
use crate::taken::taken;
use crate::wanted::Wanted;
use evaluate::rounds::{below, going_of, react};
use forms::active::actives;
use forms::form::Task;
use records::state::Phase;
use tables::Table;
use tables::kinds::{EMIT, wide};
use words::events::Heard;

// Why the instant was refused, why this signal is present, why this statement was not executed.
#[derive(Clone, Copy)]
pub enum Asked {
    Refused,
    Present(usize),
    NotExecuted(usize),
}

// The event of the final round: the inputs as they are heard, and the outputs with their statuses.
fn final_event(inputs: u16, given: Heard, marks: Heard) -> Heard
    requires { inputs ≤ 64 }
    ensures { (b : Block) (outs : List Status) → b.inputs ≡ inputs
        → bits marks.present ≡ outputs_with present b outs → bits marks.absent ≡ outputs_with absent b outs → event_of result ≡ event b (hearing_of given) outs }
{
    let first = below(inputs);
    Heard {
        present: first & given.present | marks.present,
        absent: first & given.absent | marks.absent,
    }
}

// The lowest of the statements reached that are asked for.
fn first_reached(table: &Table, phase: Phase, set: [u64; 2], w: Wanted, e: Heard) -> Option<usize>
    requires { Placed table.now 0 }
    ensures { (body : Stmt) → At table.now 0 body →
        named_of result ≡ lowest (statements body) (taken (wanted_of w) body (state_of phase (set_of set)) (event_of e)) }
{
    let live = actives(table, set);
    let task = Task {
        at: 0,
        going: going_of(phase),
    };
    let mut marks = [false; 512];
    taken(table, &live, w, task, e, &mut marks);
    let count = wide(table.sizes[0]);
    lowest_marked(&marks, count)
}

// Whether row n is an emit that is not marked.
fn is_open_emit(table: &Table, executed: &[bool; 512], count: usize, n: usize) -> bool
    requires { count ≤ 512 }
    ensures { result ≡ open_emit table.now.kinds executed.now count n }
{
    n < count && table.kinds[n] == EMIT && !executed[n]
}

// Of an emit that was not executed, the topmost statement on its path that was not.
fn first_cut(table: &Table, phase: Phase, set: [u64; 2], n: usize, e: Heard) -> Option<usize>
    requires { Placed table.now 0 }
    ensures { (body : Stmt) → At table.now 0 body →
        named_of result ≡ where_so (is_emit (numbered body n) && not (taken every body (state_of phase (set_of set)) (event_of e) n))
        (lowest (statements body) (cut_off body n (taken every body (state_of phase (set_of set)) (event_of e)))) }
{
    let live = actives(table, set);
    let task = Task {
        at: 0,
        going: going_of(phase),
    };
    let mut marks = [false; 512];
    taken(table, &live, Wanted::Every, task, e, &mut marks);
    let count = wide(table.sizes[0]);
    if is_open_emit(table, &marks, count, n) {
        return lowest_cut(table, &marks, n, count);
    }
    None
}

// Whether the signal is among the present outputs.
fn is_present(outputs: u64, s: usize) -> bool
    ensures value { result ≡ bits outputs s }
    ensures upper_bound { result ≡ true → s < 64 }
{
    s < 64 && (outputs >> s) % 2 == 1
}

// The reason of an instant, or none where the thing asked about is not so.
pub fn reason(
    table: &Table,
    phase: Phase,
    set: [u64; 2],
    inputs: u16,
    outputs: u16,
    given: Heard,
    asked: Asked,
) -> Option<usize>
    requires { (inputs + outputs ≤ 64) × Placed table.now 0 }
    ensures { (body : Stmt) → At table.now 0 body →
        named_of result ≡ reason_of (record { inputs = inputs; outputs = outputs; body = body }) (state_of phase (set_of set)) (hearing_of given) (asked_of asked) }
{
    let r = react(table, phase, set, inputs, outputs, given);
    let e = final_event(inputs, given, r.marks);
    match asked {
        Asked::Refused if r.done.is_none() => {
            first_reached(table, phase, set, Wanted::UndecidedTest, e)
        }
        Asked::Present(s) if r.done.is_some() && is_present(r.marks.present, s) => {
            first_reached(table, phase, set, Wanted::EmitOf(s as u16), e)
        }
        Asked::NotExecuted(n) if r.done.is_some() => first_cut(table, phase, set, n, e),
        _ => None,
    }
}
