// One instant on the caller's bytes: the tests in their written order, then the reaction by the rules. Nothing is written here.
#![tactic(auto)]

pub mod tests;

ghost use Rattle.std.specs.Prelude.{◌≡◌, ◌≤◌, Some, Ok};
ghost use Rattle.sets.specs.Numbers.{Numbers};
ghost use Rattle.rules.specs.Statements.{Block};
ghost use Rattle.rules.specs.States.{State, phase_of, next};
ghost use Rattle.rules.specs.Rounds as rules;
ghost use Rattle.block.specs.Format.{Good};
ghost use Rattle.records.specs.Held.{phase_number};
ghost use Rattle.evaluate.specs.Reacts.{IsAnswer};
ghost use Rattle.words.specs.Words.{hearing_of};
ghost use Rattle.reaction.specs.Fronts.{ready, wrong_inputs};
ghost use Rattle.reaction.specs.Instants.{reacted, heard_in, verdict, goes_on};
ghost use Rattle.reaction.specs.Answers.{refused_as, stopped_as};
ghost use Rattle.reaction.specs.Outcomes.{Comes, Opened, Begins};

use crate::tests::front;
use block::whole::Summary;
use evaluate::rounds::{Done, Reacted, all_heard, react};
use records::bits::{input_over, inputs_wrong};
use records::state::Phase;
use refusals::{Refused, Why};
use tables::Table;
use tables::kinds::Code;
use words::events::Heard;

// An answered instant: the present outputs as bits by signal number, the code, the rounds, how many pauses are active afterwards.
#[derive(Clone, Copy)]
pub struct Reaction {
    pub present: u64,
    pub code: Code,
    pub rounds: u16,
    pub active: u32,
}

// An instant that is not constructive: the outputs known present and absent, how many are undecided, the rounds.
#[derive(Clone, Copy)]
pub struct Doubt {
    pub present: u64,
    pub absent: u64,
    pub undecided: u32,
    pub rounds: u16,
}

// What the tests before the rules turn an instant down for: a clash with its pair, or why and where.
#[derive(Clone, Copy)]
pub enum Stopped {
    Clash(u16, u16),
    Refused(Refused),
}

impl From<Refused> for Stopped {
    ghost from_gives = { λ refused s. s ≡ refused_as refused };

    fn from(refused: Refused) -> Stopped {
        Stopped::Refused(refused)
    }
}

// Why an instant has no reaction: the program is not constructive there, or the instant was turned down.
#[derive(Clone, Copy)]
pub enum Unanswered {
    NotConstructive(Doubt),
    Clash(u16, u16),
    Refused(Refused),
}

impl From<Stopped> for Unanswered {
    ghost from_gives = { λ stopped u. u ≡ stopped_as stopped };

    fn from(stopped: Stopped) -> Unanswered {
        match stopped {
            Stopped::Clash(m, n) => Unanswered::Clash(m, n),
            Stopped::Refused(refused) => Unanswered::Refused(refused),
        }
    }
}

// The inputs of an instant: a set, with every other input absent; or the inputs present and the inputs absent, with the rest unknown.
#[derive(Clone, Copy)]
pub enum Given {
    All(u64),
    Two(u64, u64),
}

// What the rules begin with: the block's summary, and the state's phase and active pauses.
#[derive(Clone, Copy)]
pub struct Grounds {
    pub summary: Summary,
    pub phase: Phase,
    pub active: [u64; 2],
}

// The reaction, and beside it the phase and the pauses of the next state and what was heard of the inputs.
#[derive(Clone, Copy)]
pub struct Outcome {
    pub reaction: Reaction,
    pub phase: Phase,
    pub kept: [u64; 2],
    pub heard: Heard,
}

// INPUT.
pub(crate) fn wrong_inputs(inputs: u16, given: Given) -> bool
    ensures { result ≡ wrong_inputs inputs given }
{
    match given {
        Given::All(set) => input_over(inputs, set),
        Given::Two(present, absent) => inputs_wrong(inputs, present, absent),
    }
}

// What is heard of so many inputs.
fn hearing(inputs: u16, given: Given) -> Heard
    requires { inputs ≤ 64 }
    ensures { (b : Block) → b.inputs ≡ inputs → hearing_of result ≡ heard_in b given }
{
    match given {
        Given::All(set) => all_heard(inputs, set),
        Given::Two(present, absent) => Heard { present, absent },
    }
}

// The phase of the next state: running after code 1, else finished.
fn phase_after(code: Code) -> Phase
    ensures { (A : Numbers) → phase_number result ≡ phase_of (next code.0 A) }
{
    if code.0 == 1 {
        Phase::Running
    } else {
        Phase::Finished
    }
}

// What is done as an answer.
fn of_done(r: Reacted, done: Done, heard: Heard) -> Outcome
    ensures { (b : Block) (a : rules.Answer) → IsAnswer b a r → r.done ≡ Some done
        → (given : Given) → hearing_of heard ≡ heard_in b given → Comes given (reacted b a) (Ok result) }
{
    let kept = done.kept;
    Outcome {
        reaction: Reaction {
            present: r.marks.present,
            code: done.code,
            rounds: r.rounds,
            active: done.active,
        },
        phase: phase_after(done.code),
        kept,
        heard,
    }
}

// The rules' reaction as an answer.
fn of_reaction(r: Reacted, heard: Heard) -> Result<Outcome, Unanswered>
    ensures { (b : Block) (a : rules.Answer) → IsAnswer b a r → (given : Given) → hearing_of heard ≡ heard_in b given → Comes given (reacted b a) result }
{
    match r.done {
        Some(done) => Ok(of_done(r, done, heard)),
        None => Err(Unanswered::NotConstructive(Doubt {
            present: r.marks.present,
            absent: r.marks.absent,
            undecided: r.undecided,
            rounds: r.rounds,
        })),
    }
}

// After the tests of block, state and inputs: ROOM, then the rules react.
fn past_tests(
    table: &Table,
    grounds: Grounds,
    given: Given,
    roomless: bool,
) -> Result<Outcome, Unanswered>
    requires { (g : Good) × Opened table.now grounds.summary g }
    ensures { (g : Good) → Opened table.now grounds.summary g
        → (st : State) → Begins st grounds.phase grounds.active → Comes given (goes_on given roomless (ready g st)) result }
{
    if roomless {
        return Err(Unanswered::Refused(Why::Room.at(0)));
    }
    let inputs = grounds.summary.inputs;
    let outputs = grounds.summary.outputs;
    let heard = hearing(inputs, given);
    let r = react(table, grounds.phase, grounds.active, inputs, outputs, heard);
    of_reaction(r, heard)
}

// What one instant comes to; `roomless` says that a log without room is lent.
pub fn comes_to(
    block: &[u8],
    state: &[u8],
    given: Given,
    roomless: bool,
) -> Result<Outcome, Unanswered>
    ensures { Comes given (verdict block.now state.now given roomless) result }
{
    let mut table = Table::empty();
    let grounds = front(block, state, given, &mut table)?;
    past_tests(&table, grounds, given, roomless)
}
