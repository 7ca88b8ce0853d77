// The only crate that names the library for callers in C: each of its answers as plain numbers, in the order of the answer's layout. What an answer does
// not name is 0.
#![tactic(auto)]

pub mod whole;

ghost use Rattle.std.specs.Prelude.{◌≡◌, length, Err};
ghost use Rattle.block.specs.Format.{reading};
ghost use Rattle.reaction.specs.Instants.{told, state_after, log_after, end_after, instant_verdict, logged_verdict, heard_verdict, heard_logged_verdict};
ghost use Rattle.reaction.specs.declared.Given.TheVariants.{All, Two};
ghost use Rattle.foldheron.specs.Answers.{check_owed, begun_owed, state_owed, part_owed, part_values, answer_in, end_in};
ghost use Rattle.reaction.specs.Answers.{instant_told};
ghost use Rattle.shelf.specs.Answered.{shelved_values};
ghost use Rattle.reasons.specs.Taking.{asked_of};
ghost use Rattle.foldheron.specs.Reasons.{reason_values};
ghost use Rattle.values.specs.Asking.{question_for};
ghost use Rattle.values.specs.Calls.{logged_values, asked_by, told_why, install_owed, install_leaves, fetch_owed, fetch_leaves, withdraw_owed, withdraw_leaves};

use foldheron::{Asked, Logged, Reaction, Refused, Stopped, Unanswered, number_of};
use records::parts::copy_at;

// Number, place, version, inputs, outputs, locals, statements, pauses.
pub fn check(block: &[u8]) -> [u64; 8]
    ensures { result ≡ check_owed (reading block.now) }
{
    match foldheron::check(block) {
        Ok(s) => [
            0,
            0,
            s.version as u64,
            s.inputs as u64,
            s.outputs as u64,
            s.locals as u64,
            s.statements as u64,
            s.pauses as u64,
        ],
        Err(r) => [number_of(r.why) as u64, r.place as u64, 0, 0, 0, 0, 0, 0],
    }
}

// Number, place.
fn done(answer: Result<(), Refused>) -> [u64; 2]
    ensures { result ≡ shelved_values answer }
{
    match answer {
        Ok(()) => [0, 0],
        Err(r) => [number_of(r.why) as u64, r.place as u64],
    }
}

pub fn fresh(block: &[u8], state: &mut [u8]) -> [u64; 2]
    ensures value { result ≡ begun_owed (reading block.now) state.old }
    ensures state_after { state.new ≡ state_owed (reading block.now) state.old }
{
    done(foldheron::fresh(block, state))
}

// Number, place, pair, present, absent and undecided outputs, rounds, code, active pauses, and the end of a log.
fn told_values(answer: Result<Reaction, Unanswered>, end: usize) -> [u64; 11]
    ensures { result ≡ logged_values (instant_told answer) end }
{
    match answer {
        Ok(a) => [
            0,
            0,
            0,
            0,
            a.present,
            0,
            0,
            a.rounds as u64,
            a.code.0 as u64,
            a.active as u64,
            end as u64,
        ],
        Err(u) => unanswered(u, end as u64),
    }
}

fn unanswered(u: Unanswered, end: u64) -> [u64; 11]
    ensures { result ≡ logged_values (instant_told (Err u)) end }
{
    match u {
        Unanswered::NotConstructive(d) => [
            13,
            0,
            0,
            0,
            d.present,
            d.absent,
            d.undecided as u64,
            d.rounds as u64,
            0,
            0,
            end,
        ],
        Unanswered::Clash(first, second) => [
            10,
            0,
            first as u64,
            second as u64,
            0,
            0,
            0,
            0,
            0,
            0,
            end,
        ],
        Unanswered::Refused(r) => [
            number_of(r.why) as u64,
            r.place as u64,
            0,
            0,
            0,
            0,
            0,
            0,
            0,
            0,
            end,
        ],
    }
}

// The same of an instant with a log: the end is 0 where nothing was logged.
fn logged(answer: Result<Logged, Unanswered>) -> [u64; 11]
    ensures { result ≡ logged_values (instant_told (answer_in answer)) (end_in answer) }
{
    match answer {
        Ok(l) => told_values(Ok(l.reaction), l.end),
        Err(u) => told_values(Err(u), 0),
    }
}

// As above, with end 0.
pub fn instant(block: &[u8], state: &mut [u8], inputs: u64) -> [u64; 11]
    ensures value { result ≡ logged_values (told (instant_verdict block.now state.old inputs)) 0 }
    ensures state_after { state.new ≡ state_after state.old (instant_verdict block.now state.old inputs) }
{
    told_values(foldheron::instant(block, state, inputs), 0)
}

pub fn instant_logged(
    block: &[u8],
    state: &mut [u8],
    inputs: u64,
    log: &mut [u8],
    end: usize,
) -> [u64; 11]
    ensures value { result ≡ logged_values (told (logged_verdict block.now state.old inputs log.old end))
        (end_after end (logged_verdict block.now state.old inputs log.old end)) }
    ensures state_after { state.new ≡ state_after state.old (logged_verdict block.now state.old inputs log.old end) }
    ensures log_after { log.new ≡ log_after log.old end (All inputs) (logged_verdict block.now state.old inputs log.old end) }
{
    logged(foldheron::instant_logged(block, state, inputs, log, end))
}

// The same for two sets of inputs.
pub fn instant_heard(block: &[u8], state: &mut [u8], present: u64, absent: u64) -> [u64; 11]
    ensures value { result ≡ logged_values (told (heard_verdict block.now state.old present absent)) 0 }
    ensures state_after { state.new ≡ state_after state.old (heard_verdict block.now state.old present absent) }
{
    told_values(foldheron::instant_heard(block, state, present, absent), 0)
}

pub fn instant_heard_logged(
    block: &[u8],
    state: &mut [u8],
    present: u64,
    absent: u64,
    log: &mut [u8],
    end: usize,
) -> [u64; 11]
    ensures value { result ≡ logged_values (told (heard_logged_verdict block.now state.old present absent log.old end))
        (end_after end (heard_logged_verdict block.now state.old present absent log.old end)) }
    ensures state_after { state.new ≡ state_after state.old (heard_logged_verdict block.now state.old present absent log.old end) }
    ensures log_after { log.new ≡ log_after log.old end (Two present absent) (heard_logged_verdict block.now state.old present absent log.old end) }
{
    logged(foldheron::instant_heard_logged(block, state, present, absent, log, end))
}

// Number, place, and the offset and size of the part of the block.
pub fn excerpt(block: &[u8], n: usize) -> [u64; 4]
    ensures { result ≡ part_values (part_owed (reading block.now) n) }
{
    match foldheron::part_of(block, n) {
        Ok(part) => [0, 0, part.offset as u64, part.size as u64],
        Err(r) => [number_of(r.why) as u64, r.place as u64, 0, 0],
    }
}

// What is asked by number. Another number asks about statement 512, which no block has, so that it is answered as a thing that is not so.
fn asked_by(asked: u16, about: usize) -> Asked
    ensures { asked_of result ≡ question_for (asked_by asked about) }
{
    match asked {
        0 => Asked::Refused,
        1 => Asked::Present(about),
        2 => Asked::NotExecuted(about),
        _ => Asked::NotExecuted(512),
    }
}

// Number, place, pair, and the statement that is named.
fn reasoned(answer: Result<usize, Stopped>) -> [u64; 5]
    ensures { result ≡ reason_values answer }
{
    match answer {
        Ok(n) => [0, 0, 0, 0, n as u64],
        Err(s) => stopped(s),
    }
}

fn stopped(s: Stopped) -> [u64; 5]
    ensures { result ≡ reason_values (Err s) }
{
    match s {
        Stopped::Clash(first, second) => [10, 0, first as u64, second as u64, 0],
        Stopped::Refused(r) => [number_of(r.why) as u64, r.place as u64, 0, 0, 0],
    }
}

pub fn reason(
    block: &[u8],
    state: &[u8],
    present: u64,
    absent: u64,
    asked: u16,
    about: usize,
) -> [u64; 5]
    ensures { result ≡ told_why block.now state.now present absent (asked_by asked about) }
{
    let question = asked_by(asked, about);
    reasoned(foldheron::reason(block, state, present, absent, question))
}

pub fn install(shelf: &mut [u8], party: u16, name: u16, block: &[u8]) -> [u64; 2]
    ensures value { result ≡ install_owed shelf.old party name block.now }
    ensures shelf_after { shelf.new ≡ install_leaves shelf.old party name block.now }
{
    done(foldheron::install(shelf, party, name, block))
}

// Number, place, and how many bytes the block has, which is copied to the front of the lent ones.
pub fn fetch(shelf: &[u8], party: u16, name: u16, block: &mut [u8]) -> [u64; 3]
    requires { length block.old ≡ 3086 }
    ensures value { result ≡ fetch_owed shelf.now party name }
    ensures block_after { block.new ≡ fetch_leaves shelf.now party name block.old }
{
    match foldheron::fetch(shelf, party, name) {
        Ok(part) => {
            copy_at(block, 0, part);
            [0, 0, part.len() as u64]
        }
        Err(r) => [number_of(r.why) as u64, r.place as u64, 0],
    }
}

pub fn withdraw(shelf: &mut [u8], party: u16, name: u16) -> [u64; 2]
    ensures value { result ≡ withdraw_owed shelf.old party name }
    ensures shelf_after { shelf.new ≡ withdraw_leaves shelf.old party name }
{
    done(foldheron::withdraw(shelf, party, name))
}
