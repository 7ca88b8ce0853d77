// The rounds of an instant, and its answer ("Rounds", "Next state").
ghost use Rattle.std.specs.Prelude.{◌≡◌, cond, ◌&&◌, ℕ, ◌+◌, ◌≤◌, eqb, ltb};
ghost use Rattle.std.proofs.Math.Option.{some};
ghost use Rattle.sets.specs.Numbers.{Numbers, empty, lowest};
ghost use Rattle.sets.specs.Words.{bits, set_of};
ghost use Rattle.rules.specs.Statements.{Block, Stmt};
ghost use Rattle.rules.specs.Events.{all_heard, event};
ghost use Rattle.rules.specs.States.{step, next};
ghost use Rattle.rules.specs.Rounds.{undecided, answer, code_width};
ghost use Rattle.words.specs.Words.{event_of, hearing_of};
ghost use Rattle.forms.specs.Forms.{At, Placed, Live, step_of};
ghost use Rattle.walk.specs.Memo.{Sound};
ghost use Rattle.evaluate.specs.Reacts.{outs_from, statuses, marks_of, Fine, Marks, Sized, Rounded, Ends, state_of, going_by, DoneAs, IsAnswer, Reacts};

use crate::next::next_kept;
use forms::active::actives;
use forms::form::{Going, Task};
use records::state::Phase;
use tables::Table;
use tables::kinds::Code;
use walk::walk;
use words::events::Heard;
use words::given::{Mark, MustCan};
use words::pauses::{Kept, members_of, pause_count};

// Where the rounds end: the outputs' marks, and how many rounds there were.
#[derive(Clone, Copy)]
pub struct Ended {
    pub marks: Heard,
    pub rounds: u16,
}

// What a constructive instant comes to: its code, the pauses kept for the next one, and how many they are.
#[derive(Clone, Copy)]
pub struct Done {
    pub code: Code,
    pub kept: [u64; 2],
    pub active: u32,
}

// The answer to an instant: the outputs' marks, how many outputs have none, how many rounds there were, and what is done, where the
// program is constructive.
#[derive(Clone, Copy)]
pub struct Reacted {
    pub marks: Heard,
    pub undecided: u32,
    pub rounds: u16,
    pub done: Option<Done>,
}

// The signals below a number.
pub fn below(n: u16) -> u64
    requires { n ≤ 64 }
    ensures { (k : ℕ) → bits result k ≡ ltb k n }
{
    if n < 64 {
        (1u64 << n) - 1
    } else {
        0xffff_ffff_ffff_ffff
    }
}

// The outputs' signals.
pub(crate) fn outputs_of(inputs: u16, outputs: u16) -> u64
    requires { inputs + outputs ≤ 64 }
    ensures { (k : ℕ) → bits result k ≡ outs_from inputs outputs k }
{
    let first = below(inputs);
    let all = below(inputs + outputs);
    all & (all ^ first)
}

// No unknowns: the inputs of a set are present, and the other inputs absent.
pub fn all_heard(inputs: u16, given: u64) -> Heard
    requires { inputs ≤ 64 }
    ensures { (b : Block) → b.inputs ≡ inputs → hearing_of result ≡ all_heard b (bits given) }
{
    let first = below(inputs);
    Heard {
        present: given,
        absent: first & (first ^ given),
    }
}

// The event of a round: the inputs as they are heard, the outputs with their marks.
pub(crate) fn heard_in(inputs: u16, given: Heard, marks: Heard) -> Heard
    requires { inputs ≤ 64 }
    ensures { (b : Block) (n : ℕ) → Sized b inputs n → Fine (outs_from inputs n) marks → event_of result ≡ event b (hearing_of given) (marks_of b marks) }
{
    let first = below(inputs);
    Heard {
        present: first & given.present | marks.present,
        absent: first & given.absent | marks.absent,
    }
}

// Present the outputs in must, absent those not in can, the others as they were.
pub(crate) fn marked_by(outs: u64, marks: Heard, a: MustCan) -> Heard
    ensures { Marks (bits outs) marks a result }
{
    let must = a.must.signals;
    let can = a.can.signals;
    let absent = outs & (marks.absent | outs & (outs ^ can));
    Heard {
        present: outs & (must | marks.present & can),
        absent: absent & (absent ^ must),
    }
}

// One round.
fn round_of(
    table: &Table,
    live: &[bool; 512],
    memo: &mut [u64],
    task: Task,
    inputs: u16,
    outputs: u16,
    given: Heard,
    marks: Heard,
) -> Heard
    requires { (inputs + outputs ≤ 64) × Placed table.now task.at
        × Sound table.now live.now memo.old }
    ensures { Rounded table.now live.now task inputs outputs given marks result
        × Sound table.now live.now memo.new }
{
    let e = heard_in(inputs, given, marks);
    let a = walk(table, live, memo, Mark::Plus, task, e);
    let outs = outputs_of(inputs, outputs);
    marked_by(outs, marks, a.said)
}

// All rounds: the last is the first that changes nothing. Where no output is undecided that is the next one, which is counted without a walk.
pub(crate) fn all_rounds(
    table: &Table,
    live: &[bool; 512],
    memo: &mut [u64],
    task: Task,
    inputs: u16,
    outputs: u16,
    given: Heard,
) -> Ended
    requires { (inputs + outputs ≤ 64) × Placed table.now task.at
        × Sound table.now live.now memo.old }
    ensures { Ends table.now live.now task inputs outputs given result
        × Sound table.now live.now memo.new }
{
    let mut marks = Heard {
        present: 0,
        absent: 0,
    };
    for rounds in 0..outputs + 1 {
        let end = Ended {
            marks,
            rounds: rounds + 1,
        };
        if undecided_of(inputs, outputs, marks) == 0 {
            return end;
        }
        let next = round_of(table, live, memo, task, inputs, outputs, given, marks);
        if next == marks {
            return end;
        }
        marks = next;
    }
    Ended {
        marks,
        rounds: outputs + 1,
    }
}

// How the root is taken in a phase: a finished block is not taken at all.
pub fn going_of(phase: Phase) -> Going
    ensures going { result ≡ going_by phase }
    ensures its_step { (A : Numbers) (t : Stmt) → step_of result A t ≡ step t (state_of phase A) }
{
    match phase {
        Phase::Fresh => Going::Started,
        Phase::Running => Going::Resumed,
        Phase::Finished => Going::Idle,
    }
}

// The codes that a legal block has.
fn legal_codes(codes: u32) -> u32
    ensures { (n : ℕ) → bits result n ≡ (ltb n 18 && bits codes n) }
{
    codes % 262144
}

// The code of a set that has one.
fn code_in(codes: u32) -> Code
    ensures { (codes ≡ 0 → ⊥) → lowest 32 (bits codes) ≡ some result.0 }
{
    Code(codes.trailing_zeros())
}

// What is kept for the next instant: code 1 keeps the pauses, another code none.
fn kept_for(c: Code, pauses: [u64; 2]) -> [u64; 2]
    ensures { set_of result ≡ cond (eqb c.0 1) (set_of pauses) empty }
{
    if c.0 == 1 { pauses } else { [0, 0] }
}

// How many outputs have no mark.
fn undecided_of(inputs: u16, outputs: u16, marks: Heard) -> u32
    requires { inputs + outputs ≤ 64 }
    ensures { result ≡ undecided (statuses inputs outputs marks) }
{
    let outs = outputs_of(inputs, outputs);
    let decided = marks.present | marks.absent;
    members_of(outs & (outs ^ decided))
}

// What is done with a code, where the walk kept these pauses.
fn done_with(code: Code, pauses: [u64; 2]) -> Done
    ensures { DoneAs code.0 (next code.0 (set_of pauses)) result }
{
    let kept = kept_for(code, pauses);
    Done {
        code,
        kept,
        active: pause_count(kept),
    }
}

// The answer from the final marks, and must's codes with what is kept at them.
fn answer_of(inputs: u16, outputs: u16, end: Ended, last: Kept) -> Reacted
    requires { inputs + outputs ≤ 64 }
    ensures { (b : Block) → Sized b inputs outputs → Fine (outs_from inputs outputs) end.marks
        → IsAnswer b (answer (record { statuses = marks_of b end.marks; rounds = end.rounds }) (lowest code_width (bits last.codes)) (set_of last.pauses)) result }
{
    let codes = legal_codes(last.codes);
    let done = if codes == 0 {
        None
    } else {
        Some(done_with(code_in(codes), last.pauses))
    };
    Reacted {
        marks: end.marks,
        undecided: undecided_of(inputs, outputs, end.marks),
        rounds: end.rounds,
        done,
    }
}

// One instant with this memory, for the phase that the going is of.
fn react_with(
    table: &Table,
    live: &[bool; 512],
    memo: &mut [u64],
    going: Going,
    set: [u64; 2],
    inputs: u16,
    outputs: u16,
    given: Heard,
) -> Reacted
    requires { (inputs + outputs ≤ 64) × Placed table.now 0 × Sound table.now live.now memo.old }
    ensures { (phase : Phase) → ((A : Numbers) (t : Stmt) → step_of going A t ≡ step t (state_of phase A))
        → Live table.now (set_of set) live.now
        → (body : Stmt) → At table.now 0 body
        → Reacts (record { inputs = inputs; outputs = outputs; body = body }) phase (set_of set) (hearing_of given) result }
{
    let task = Task { at: 0, going };
    let end = all_rounds(table, live, memo, task, inputs, outputs, given);
    let e = heard_in(inputs, given, end.marks);
    let last = next_kept(table, live, memo, set, task, e);
    answer_of(inputs, outputs, end, last)
}

// One instant of a block from a state, with the inputs that are heard present and absent. Memory costs time too: the fewest statements have none,
// few have it for their locals alone: 512 words are the 64 entries of `body_entry` in `walk`, 2,560 these and the 256 of `task_entry`.
pub fn react(
    table: &Table,
    phase: Phase,
    set: [u64; 2],
    inputs: u16,
    outputs: u16,
    given: Heard,
) -> Reacted
    requires { (inputs + outputs ≤ 64) × Placed table.now 0 }
    ensures { (body : Stmt) → At table.now 0 body
        → Reacts (record { inputs = inputs; outputs = outputs; body = body }) phase (set_of set) (hearing_of given) result }
{
    let live = actives(table, set);
    let going = going_of(phase);
    if table.sizes[0] < 24 {
        let mut none = [0u64; 1];
        return react_with(table, &live, &mut none, going, set, inputs, outputs, given);
    }
    if table.sizes[0] < 64 {
        let mut few = [0u64; 512];
        return react_with(table, &live, &mut few, going, set, inputs, outputs, given);
    }
    let mut memo = [0u64; 2560];
    react_with(table, &live, &mut memo, going, set, inputs, outputs, given)
}
