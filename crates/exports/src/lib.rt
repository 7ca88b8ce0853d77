// The library's calls under C names; include/foldheron.h documents each. A call gives back the refusal's number, 0 for none, and writes the values
// of its whole answer, 8 bytes each, into the bytes that are lent for it. Their length is fixed for each call: with any other, a call gives back 64,
// ANSWER, and writes nothing anywhere.
#![tactic(auto)]

mod layout;

ghost use Rattle.std.specs.Prelude.{◌≡◌};
ghost use Rattle.block.specs.Format.{reading};
ghost use Rattle.reaction.specs.Instants.{told, state_after, log_after, end_after, instant_verdict, logged_verdict, heard_verdict, heard_logged_verdict};
ghost use Rattle.reaction.specs.declared.Given.TheVariants.{All, Two};
ghost use Rattle.foldheron.specs.Answers.{check_owed, begun_owed, state_owed, part_owed, part_values};
ghost use Rattle.values.specs.Whole.{Compares, doubling_owed, doubling_leaves, conversion_owed, conversion_leaves, text_owed, text_leaves, block_owed, block_leaves, ShowsMaze, room_by, corridor_owed};
ghost use Rattle.exports.specs.Layout.{lent, Answers, AnswersOwed, Stays, lent_both, AnswersBoth};
ghost use Rattle.values.specs.Calls.{told_values, logged_values, asked_by, told_why, install_owed, install_leaves, fetch_owed, fetch_leaves, withdraw_owed, withdraw_leaves};

use crate::layout::put_answer;
use values::whole;

const ANSWER: u16 = 64;

// How many bytes an instant's answer has, without a log and with one.
const INSTANT: usize = 80;

const LOGGED: usize = 88;

// 64 bytes: the number, the place, and of a good block its version and counts.
#[unsafe(no_mangle)]
pub extern "C" fn foldheron_check(block: &[u8], answer: &mut [u8]) -> u16
    ensures { Answers 8 (check_owed (reading block.now)) answer.old answer.new result }
{
    if answer.len() != 64 {
        return ANSWER;
    }
    let values = values::check(block);
    put_answer(answer, &values)
}

// 16 bytes: the number and the place.
#[unsafe(no_mangle)]
pub extern "C" fn foldheron_fresh(block: &[u8], state: &mut [u8], answer: &mut [u8]) -> u16
    ensures answers { Answers 2 (begun_owed (reading block.now) state.old) answer.old answer.new result }
    ensures state_after { state.new ≡ lent 2 answer.old (state_owed (reading block.now) state.old) state.old }
{
    if answer.len() != 16 {
        return ANSWER;
    }
    let values = values::fresh(block, state);
    put_answer(answer, &values)
}

// 80 bytes: the number, the place, the pair, present, absent and undecided outputs, rounds, code, active pauses.
#[unsafe(no_mangle)]
pub extern "C" fn foldheron_instant(
    block: &[u8],
    state: &mut [u8],
    inputs: u64,
    answer: &mut [u8],
) -> u16
    ensures answers { Answers 10 (told_values (told (instant_verdict block.now state.old inputs))) answer.old answer.new result }
    ensures state_after { state.new ≡ lent 10 answer.old (state_after state.old (instant_verdict block.now state.old inputs)) state.old }
{
    if answer.len() != INSTANT {
        return ANSWER;
    }
    let values = values::instant(block, state, inputs);
    put_answer(answer, &values[..10])
}

// 88 bytes: those of an instant, and the log's new end.
#[unsafe(no_mangle)]
pub extern "C" fn foldheron_instant_logged(
    block: &[u8],
    state: &mut [u8],
    inputs: u64,
    log: &mut [u8],
    end: usize,
    answer: &mut [u8],
) -> u16
    ensures answers { Answers 11 (logged_values (told (logged_verdict block.now state.old inputs log.old end))
        (end_after end (logged_verdict block.now state.old inputs log.old end))) answer.old answer.new result }
    ensures state_after { state.new ≡ lent 11 answer.old
        (state_after state.old (logged_verdict block.now state.old inputs log.old end)) state.old }
    ensures log_after { log.new ≡ lent 11 answer.old
        (log_after log.old end (All inputs) (logged_verdict block.now state.old inputs log.old end)) log.old }
{
    if answer.len() != LOGGED {
        return ANSWER;
    }
    let values = values::instant_logged(block, state, inputs, log, end);
    put_answer(answer, &values)
}

// The same for the inputs present and the inputs absent, the rest being unknown.
#[unsafe(no_mangle)]
pub extern "C" fn foldheron_instant_heard(
    block: &[u8],
    state: &mut [u8],
    present: u64,
    absent: u64,
    answer: &mut [u8],
) -> u16
    ensures answers { Answers 10 (told_values (told (heard_verdict block.now state.old present absent))) answer.old answer.new result }
    ensures state_after { state.new ≡ lent 10 answer.old
        (state_after state.old (heard_verdict block.now state.old present absent)) state.old }
{
    if answer.len() != INSTANT {
        return ANSWER;
    }
    let values = values::instant_heard(block, state, present, absent);
    put_answer(answer, &values[..10])
}

// The same with a log, 88 bytes.
#[unsafe(no_mangle)]
pub extern "C" fn foldheron_instant_heard_logged(
    block: &[u8],
    state: &mut [u8],
    present: u64,
    absent: u64,
    log: &mut [u8],
    end: usize,
    answer: &mut [u8],
) -> u16
    ensures answers { Answers 11 (logged_values (told (heard_logged_verdict block.now state.old present absent log.old end))
        (end_after end (heard_logged_verdict block.now state.old present absent log.old end))) answer.old answer.new result }
    ensures state_after { state.new ≡ lent 11 answer.old
        (state_after state.old (heard_logged_verdict block.now state.old present absent log.old end)) state.old }
    ensures log_after { log.new ≡ lent 11 answer.old
        (log_after log.old end (Two present absent) (heard_logged_verdict block.now state.old present absent log.old end)) log.old }
{
    if answer.len() != LOGGED {
        return ANSWER;
    }
    let values = values::instant_heard_logged(block, state, present, absent, log, end);
    put_answer(answer, &values)
}

// 32 bytes: the number, the place, and the offset and size of the part of the block.
#[unsafe(no_mangle)]
pub extern "C" fn foldheron_excerpt(block: &[u8], n: usize, answer: &mut [u8]) -> u16
    ensures { Answers 4 (part_values (part_owed (reading block.now) n)) answer.old answer.new result }
{
    if answer.len() != 32 {
        return ANSWER;
    }
    let values = values::excerpt(block, n);
    put_answer(answer, &values)
}

// 40 bytes: the number, the place, the pair, and the statement that is named.
#[unsafe(no_mangle)]
pub extern "C" fn foldheron_reason(
    block: &[u8],
    state: &[u8],
    present: u64,
    absent: u64,
    asked: u16,
    about: usize,
    answer: &mut [u8],
) -> u16
    ensures { Answers 5 (told_why block.now state.now present absent (asked_by asked about)) answer.old answer.new result }
{
    if answer.len() != 40 {
        return ANSWER;
    }
    let values = values::reason(block, state, present, absent, asked, about);
    put_answer(answer, &values)
}

// 16 bytes: the number and the place.
#[unsafe(no_mangle)]
pub extern "C" fn foldheron_install(
    shelf: &mut [u8],
    party: u16,
    name: u16,
    block: &[u8],
    answer: &mut [u8],
) -> u16
    ensures answers { Answers 2 (install_owed shelf.old party name block.now) answer.old answer.new result }
    ensures shelf_after { shelf.new ≡ lent 2 answer.old (install_leaves shelf.old party name block.now) shelf.old }
{
    if answer.len() != 16 {
        return ANSWER;
    }
    let values = values::install(shelf, party, name, block);
    put_answer(answer, &values)
}

// 24 bytes: the number, the place, and how many bytes the block has, which is copied to the front of 3,086 lent bytes.
#[unsafe(no_mangle)]
pub extern "C" fn foldheron_fetch(
    shelf: &[u8],
    party: u16,
    name: u16,
    block: &mut [u8],
    answer: &mut [u8],
) -> u16
    ensures answers_both { AnswersBoth 3 block.old (fetch_owed shelf.now party name) answer.old answer.new result }
    ensures block_after { block.new ≡ lent_both 3 block.old answer.old (fetch_leaves shelf.now party name block.old) block.old }
{
    if block.len() != 3086 {
        return ANSWER;
    }
    if answer.len() != 24 {
        return ANSWER;
    }
    let values = values::fetch(shelf, party, name, block);
    put_answer(answer, &values)
}

// 16 bytes: the number and the place.
#[unsafe(no_mangle)]
pub extern "C" fn foldheron_withdraw(
    shelf: &mut [u8],
    party: u16,
    name: u16,
    answer: &mut [u8],
) -> u16
    ensures answers { Answers 2 (withdraw_owed shelf.old party name) answer.old answer.new result }
    ensures shelf_after { shelf.new ≡ lent 2 answer.old (withdraw_leaves shelf.old party name) shelf.old }
{
    if answer.len() != 16 {
        return ANSWER;
    }
    let values = values::withdraw(shelf, party, name);
    put_answer(answer, &values)
}

// 32 bytes: the number, the place, which block is turned down, and the size of the run, which is written to the front of the lent bytes.
#[unsafe(no_mangle)]
pub extern "C" fn foldheron_alike(
    first: &[u8],
    second: &[u8],
    run: &mut [u8],
    answer: &mut [u8],
) -> u16
    ensures answers_owed { AnswersOwed 4 (Compares first.now second.now run.old run.new) answer.old answer.new result }
    ensures stays { Stays 4 answer.old run.old run.new }
{
    if answer.len() != 32 {
        return ANSWER;
    }
    let values = whole::alike(first, second, run);
    put_answer(answer, &values)
}

// 24 bytes: the number, the place, and how many bytes were written to the front of the lent ones.
#[unsafe(no_mangle)]
pub extern "C" fn foldheron_double_loops(block: &[u8], out: &mut [u8], answer: &mut [u8]) -> u16
    ensures answers { Answers 3 (doubling_owed block.now out.old) answer.old answer.new result }
    ensures out_after { out.new ≡ lent 3 answer.old (doubling_leaves block.now out.old) out.old }
{
    if answer.len() != 24 {
        return ANSWER;
    }
    let values = whole::double_loops(block, out);
    put_answer(answer, &values)
}

// 24 bytes: the same of a block of edition 2 written in edition 1.
#[unsafe(no_mangle)]
pub extern "C" fn foldheron_convert(block: &[u8], out: &mut [u8], answer: &mut [u8]) -> u16
    ensures answers { Answers 3 (conversion_owed block.now out.old) answer.old answer.new result }
    ensures out_after { out.new ≡ lent 3 answer.old (conversion_leaves block.now out.old) out.old }
{
    if answer.len() != 24 {
        return ANSWER;
    }
    let values = whole::convert(block, out);
    put_answer(answer, &values)
}

// 24 bytes: the same of the text of a block.
#[unsafe(no_mangle)]
pub extern "C" fn foldheron_write_text(block: &[u8], text: &mut [u8], answer: &mut [u8]) -> u16
    ensures answers { Answers 3 (text_owed block.now text.old) answer.old answer.new result }
    ensures text_after { text.new ≡ lent 3 answer.old (text_leaves block.now text.old) text.old }
{
    if answer.len() != 24 {
        return ANSWER;
    }
    let values = whole::write_text(block, text);
    put_answer(answer, &values)
}

// 24 bytes: the same of the block that a text stands for.
#[unsafe(no_mangle)]
pub extern "C" fn foldheron_read_text(text: &[u8], block: &mut [u8], answer: &mut [u8]) -> u16
    ensures answers { Answers 3 (block_owed text.now block.old) answer.old answer.new result }
    ensures block_after { block.new ≡ lent 3 answer.old (block_leaves text.now block.old) block.old }
{
    if answer.len() != 24 {
        return ANSWER;
    }
    let values = whole::read_text(text, block);
    put_answer(answer, &values)
}

// 40 bytes: the number, the place, and the signals whose rooms win, lose and draw.
#[unsafe(no_mangle)]
pub extern "C" fn foldheron_maze(block: &[u8], inputs: u64, answer: &mut [u8]) -> u16
    ensures { AnswersOwed 5 (ShowsMaze block.now inputs) answer.old answer.new result }
{
    if answer.len() != 40 {
        return ANSWER;
    }
    let values = whole::maze(block, inputs);
    put_answer(answer, &values)
}

// 48 bytes: the number, the place, which corridor, and the room that it leads to by its three numbers.
#[unsafe(no_mangle)]
pub extern "C" fn foldheron_corridor(
    block: &[u8],
    inputs: u64,
    room: u16,
    first: usize,
    second: usize,
    n: usize,
    answer: &mut [u8],
) -> u16
    ensures { Answers 6 (corridor_owed block.now inputs (room_by room first second) n) answer.old answer.new result }
{
    if answer.len() != 48 {
        return ANSWER;
    }
    let values = whole::corridor(block, inputs, room, first, second, n);
    put_answer(answer, &values)
}
