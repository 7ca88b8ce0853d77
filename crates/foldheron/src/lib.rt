// What users call: the check of a block, a fresh state for it, one instant, one with a log record, an excerpt of a block, the reason of an
// instant, the calls on a shelf of blocks: install, fetch and withdraw; whether two blocks are alike, a block with its loop bodies doubled, the maze
// of a block with its corridors, blocks as text, and blocks of edition 2 written in edition 1.
#![tactic(auto)]

pub mod say_why;

ghost use Rattle.std.specs.Prelude.{◌≡◌, false, ◌+◌, ◌≤◌, ◌<◌, length, get_or, IfOk};
ghost use Rattle.records.specs.Parts.{LiesAt};
ghost use Rattle.block.specs.Format.{reading};
ghost use Rattle.records.specs.LogRecord.{no_room};
ghost use Rattle.reaction.specs.declared.Given.TheVariants.{All, Two};
ghost use Rattle.reaction.specs.Instants.{told, state_after, log_after, end_after, verdict, instant_verdict, logged_verdict, heard_verdict, heard_logged_verdict};
ghost use Rattle.reaction.specs.Answers.{instant_told};
ghost use Rattle.reasons.specs.Taking.{asked_of};
ghost use Rattle.foldheron.specs.Reasons.{reason_values, reason_owed};
ghost use Rattle.foldheron.specs.Answers.{check_values, check_owed, begun_values, begun_owed, state_owed, part_told, part_owed, excerpted_as, answer_in, end_in};

pub use alike::{NotCompared, alike};
pub use block::whole::Summary;
use block::whole::{offset_of, read_block};
pub use convert::convert;
pub use copies::double_loops;
pub use maze::view::maze;
pub use maze::ways::corridor;
pub use maze::{Corridor, Room, Rooms};
use reaction::tests::front;
pub use reaction::{Doubt, Reaction, Stopped, Unanswered};
use reaction::{Given, comes_to};
pub use read_text::read_text;
pub use reasons::asked::Asked;
use records::log::{no_room, write_at_end};
use records::parts::cut;
use records::state::{Phase, write_next, write_state};
pub use refusals::{Refused, Why, number_of};
use say_why::of_named;
pub use shelf::{fetch, install, withdraw};
use tables::Table;
pub use tables::kinds::Code;
use tables::kinds::wide;
use words::events::Heard;
pub use write_text::write_text;

// Where a part of a block lies, by its offset and size.
#[derive(Clone, Copy)]
pub struct Part {
    pub offset: usize,
    pub size: usize,
}

// An answered instant, and the log's new end.
#[derive(Clone, Copy)]
pub struct Logged {
    pub reaction: Reaction,
    pub end: usize,
}

// Checks a block: numbers 1 to 8, or what it declares and how large it is.
pub fn check(block: &[u8]) -> Result<Summary, Refused>
    ensures { check_values result ≡ check_owed (reading block.now) }
{
    let mut table = Table::empty();
    read_block(block, &mut table)
}

// Writes a fresh state of a block, which names it, into 26 lent bytes: numbers 1 to 8, then 9 for another size. A refusal changes no byte.
pub fn fresh(block: &[u8], state: &mut [u8]) -> Result<(), Refused>
    ensures result_value { begun_values result ≡ begun_owed (reading block.now) state.old }
    ensures state_after { state.new ≡ state_owed (reading block.now) state.old }
{
    let mut table = Table::empty();
    let s = read_block(block, &mut table)?;
    if state.len() != 26 {
        return Err(Why::State.at(0));
    }
    let phase = u16::from(Phase::Fresh);
    write_state(state, s.version, s.statements, phase, [0, 0]);
    Ok(())
}

// The number of the first statement after statement n and all below it.
fn past_statement(table: &Table, n: usize) -> usize
    requires { n < 512 }
    ensures { result ≡ n + get_or table.now.sizes n 0 }
{
    n + wide(table.sizes[n])
}

// Where the part of the block lies that holds statement n and all below it: numbers 1 to 8, then 14. For callers that take no reference.
pub fn part_of(block: &[u8], n: usize) -> Result<Part, Refused>
    ensures value { part_told result ≡ part_owed (reading block.now) n }
    ensures size_in_bounds { IfOk result (λ p. p.offset + p.size ≤ length block.now) }
{
    let mut table = Table::empty();
    let s = read_block(block, &mut table)?;
    if s.statements <= n {
        return Err(Why::Index.at(0));
    }
    let offset = offset_of(&table, n);
    let end = offset_of(&table, past_statement(&table, n));
    Ok(Part {
        offset,
        size: end - offset,
    })
}

// The part of the block that holds statement n and all below it: numbers 1 to 8, then 14.
pub fn excerpt<'a>(block: &'a [u8], n: usize) -> Result<&'a [u8], Refused>
    ensures number { (excerpted_as result).number ≡ (part_owed (reading block.now) n).number }
    ensures place { (excerpted_as result).place ≡ (part_owed (reading block.now) n).place }
    ensures part_lies { IfOk result (λ part. LiesAt part block.entry (part_owed (reading block.now) n).offset (part_owed (reading block.now) n).size) }
{
    let part = part_of(block, n)?;
    let start = part.offset;
    let end = start + part.size;
    Ok(cut(block, start, end))
}

// Runs one instant with the inputs as they are given, and writes the next state where it is answered.
fn run(block: &[u8], state: &mut [u8], given: Given) -> Result<Reaction, Unanswered>
    ensures result_value { instant_told result ≡ told (verdict block.now state.old given false) }
    ensures state_after { state.new ≡ state_after state.old (verdict block.now state.old given false) }
{
    let came = comes_to(block, state, given, false)?;
    write_next(state, u16::from(came.phase), came.kept);
    Ok(came.reaction)
}

// The same with a log: an answered one also writes a record from its end on.
fn run_logged(
    block: &[u8],
    state: &mut [u8],
    given: Given,
    log: &mut [u8],
    end: usize,
) -> Result<Logged, Unanswered>
    ensures answer_value { instant_told (answer_in result) ≡ told (verdict block.now state.old given (no_room log.old end)) }
    ensures end_value { end_in result ≡ end_after end (verdict block.now state.old given (no_room log.old end)) }
    ensures state_after { state.new ≡ state_after state.old (verdict block.now state.old given (no_room log.old end)) }
    ensures log_after { log.new ≡ log_after log.old end given (verdict block.now state.old given (no_room log.old end)) }
{
    let roomless = no_room(log.len(), end);
    let came = comes_to(block, state, given, roomless)?;
    write_next(state, u16::from(came.phase), came.kept);
    let heard = came.heard;
    let reaction = came.reaction;
    let next = write_at_end(
        log,
        end,
        heard.present,
        heard.absent,
        reaction.present,
        reaction.code,
        reaction.rounds,
    );
    Ok(Logged {
        reaction,
        end: next,
    })
}

// Runs one instant: numbers 1 to 8, then 9, 17, 10 with the pair, 11, 13. An answered one writes the next state over the lent state; a
// refusal changes no byte.
pub fn instant(block: &[u8], state: &mut [u8], inputs: u64) -> Result<Reaction, Unanswered>
    ensures result_value { instant_told result ≡ told (instant_verdict block.now state.old inputs) }
    ensures state_after { state.new ≡ state_after state.old (instant_verdict block.now state.old inputs) }
{
    run(block, state, Given::All(inputs))
}

// The same where not all inputs are heard yet: those present, those absent, and the rest unknown. 11 is also for a signal in both sets.
pub fn instant_heard(
    block: &[u8],
    state: &mut [u8],
    present: u64,
    absent: u64,
) -> Result<Reaction, Unanswered>
    ensures result_value { instant_told result ≡ told (heard_verdict block.now state.old present absent) }
    ensures state_after { state.new ≡ state_after state.old (heard_verdict block.now state.old present absent) }
{
    run(block, state, Given::Two(present, absent))
}

// Runs one instant with a log: as above, and 12 before 13. An answered one also writes a record from the log's end on, and nothing before or
// after it changes.
pub fn instant_logged(
    block: &[u8],
    state: &mut [u8],
    inputs: u64,
    log: &mut [u8],
    end: usize,
) -> Result<Logged, Unanswered>
    ensures answer_value { instant_told (answer_in result) ≡ told (logged_verdict block.now state.old inputs log.old end) }
    ensures end_value { end_in result ≡ end_after end (logged_verdict block.now state.old inputs log.old end) }
    ensures state_after { state.new ≡ state_after state.old (logged_verdict block.now state.old inputs log.old end) }
    ensures log_after { log.new ≡ log_after log.old end (All inputs) (logged_verdict block.now state.old inputs log.old end) }
{
    run_logged(block, state, Given::All(inputs), log, end)
}

// The same where not all inputs are heard yet.
pub fn instant_heard_logged(
    block: &[u8],
    state: &mut [u8],
    present: u64,
    absent: u64,
    log: &mut [u8],
    end: usize,
) -> Result<Logged, Unanswered>
    ensures answer_value { instant_told (answer_in result) ≡ told (heard_logged_verdict block.now state.old present absent log.old end) }
    ensures end_value { end_in result ≡ end_after end (heard_logged_verdict block.now state.old present absent log.old end) }
    ensures state_after { state.new ≡ state_after state.old (heard_logged_verdict block.now state.old present absent log.old end) }
    ensures log_after { log.new ≡ log_after log.old end (Two present absent) (heard_logged_verdict block.now state.old present absent log.old end) }
{
    run_logged(block, state, Given::Two(present, absent), log, end)
}

// Says why, of the instant with these inputs present and those absent, the rest being unknown: numbers 1 to 8, then 9, 17, 10 with the pair, 11, and 16
// where the thing asked about is not so. Nothing is run, and nothing lent is written.
pub fn reason(
    block: &[u8],
    state: &[u8],
    present: u64,
    absent: u64,
    asked: Asked,
) -> Result<usize, Stopped>
    ensures { reason_values result ≡ reason_owed block.now state.now present absent (asked_of asked) }
{
    let mut table = Table::empty();
    let given = Given::Two(present, absent);
    let grounds = front(block, state, given, &mut table)?;
    let s = grounds.summary;
    let heard = Heard { present, absent };
    of_named(reasons::asked::reason(
        &table,
        grounds.phase,
        grounds.active,
        s.inputs,
        s.outputs,
        heard,
        asked,
    ))
}
