// Must and can of a statement at an event, in one walk that keeps what it finds.
#![tactic(auto)]

pub mod memo;

ghost use Rattle.std.specs.Prelude.{◌≡◌, ◌<◌};
ghost use Rattle.std.specs.Int.Bits.{bit_or};
ghost use Rattle.sets.specs.Numbers.{single, union, without};
ghost use Rattle.sets.specs.Words.{bits};
ghost use Rattle.words.specs.Words.{mark_of};
ghost use Rattle.forms.specs.Forms.{Placed, Formed};
ghost use Rattle.walk.specs.Walks.{Caught, Both, Followed, Hidden, Doubted, Walked};
ghost use Rattle.walk.specs.Memo.{WalkedOn, Sound, Settling, known_on};

use crate::memo::{Entry, Found, entry_at, known_reads, note, recalls, settles, tag_of};
use forms::form::{Form, Going, Task, resumed_form, started_form};
use tables::Table;
use tables::kinds::{Code, code_of, wide};
use words::events::{Heard, Seen, bit, heard_with, status_at};
use words::given::{
    GivenWords, Mark, MustCan, both_given, caught_given, either_given, followed_given, goes_on,
    hidden_given, mark_onward, nothing_given, saying, settled_for, silent,
};

// What is known to be given, whatever the event: must and can agree.
fn sure(a: GivenWords) -> Found
    ensures { (result.said.must ≡ a) × (result.said.can ≡ a) }
{
    let said = MustCan { must: a, can: a };
    Found { said, reads: 0 }
}

// A known status was asked for.
fn tested(s: u16, a: Found) -> Found
    ensures { (result.said ≡ a.said) × (s < 64 → bits result.reads ≡ union (bits a.reads) (single s)) }
{
    let b = bit(s);
    let said = a.said;
    Found {
        said,
        reads: a.reads | b,
    }
}

// A status that is not known: must is empty with no code, can is the union.
fn doubted(s: u16, p: Found, q: Found) -> Found
    ensures { Doubted result.said p.said.can q.said.can × (s < 64 → bits result.reads ≡ union (union (bits p.reads) (bits q.reads)) (single s)) }
{
    let b = bit(s);
    let must = nothing_given();
    let can = either_given(p.said.can, q.said.can);
    let said = MustCan { must, can };
    Found {
        said,
        reads: p.reads | q.reads | b,
    }
}

fn caught(a: Found) -> Found
    ensures { Caught result.said a.said × (result.reads ≡ a.reads) }
{
    let must = caught_given(a.said.must);
    let can = caught_given(a.said.can);
    let said = MustCan { must, can };
    Found {
        said,
        reads: a.reads,
    }
}

fn beside(a: Found, b: Found) -> Found
    ensures { Both result.said a.said b.said × (result.reads ≡ bit_or a.reads b.reads) }
{
    let must = both_given(a.said.must, b.said.must);
    let can = both_given(a.said.can, b.said.can);
    let said = MustCan { must, can };
    Found {
        said,
        reads: a.reads | b.reads,
    }
}

fn followed(a: Found, b: Found) -> Found
    ensures { Followed result.said a.said b.said.must b.said.can × (result.reads ≡ bit_or a.reads b.reads) }
{
    let must = followed_given(a.said.must, b.said.must);
    let can = followed_given(a.said.can, b.said.can);
    let said = MustCan { must, can };
    Found {
        said,
        reads: a.reads | b.reads,
    }
}

// A sequence whose second part does not count.
fn unfollowed(a: Found, nothing: GivenWords) -> Found
    ensures { Followed result.said a.said nothing nothing × (result.reads ≡ a.reads) }
{
    let must = followed_given(a.said.must, nothing);
    let can = followed_given(a.said.can, nothing);
    let said = MustCan { must, can };
    Found {
        said,
        reads: a.reads,
    }
}

// A local whose signal stays unknown.
fn hidden(s: u16, a: Found) -> Found
    ensures { s < 64 → Hidden result.said s a.said × (bits result.reads ≡ without s (bits a.reads)) }
{
    let b = bit(s);
    let must = hidden_given(s, a.said.must);
    let can = hidden_given(s, a.said.can);
    let said = MustCan { must, can };
    Found {
        said,
        reads: a.reads & (a.reads ^ b),
    }
}

// A local whose status was settled at an entry's event: of what was asked for there, only what was known counts.
fn hidden_after(s: u16, x: Entry, a: Found) -> Found
    ensures { s < 64 → Hidden result.said s a.said × (bits result.reads ≡ without s (union (known_on x.event (bits x.found.reads)) (bits a.reads))) }
{
    let b = bit(s);
    let all = known_reads(x.event, x.found.reads) | a.reads;
    let must = hidden_given(s, a.said.must);
    let can = hidden_given(s, a.said.can);
    let said = MustCan { must, can };
    Found {
        said,
        reads: all & (all ^ b),
    }
}

// What the task asks, as `form_of` says it. This walk has a function of its own for that: with one caller it is compiled into the walk.
fn walk_form(table: &Table, live: &[bool; 512], task: Task) -> Form
    requires { Placed table.now task.at }
    ensures { Formed table.now live.now task result }
{
    let at = task.at;
    let going = task.going;
    match going {
        Going::Started => started_form(table, at),
        Going::Resumed => resumed_form(table, live, at),
        Going::Held => Form::Keep(at),
        Going::Idle => Form::Done,
    }
}

// Whether what is found of a task is worth an entry: two parts and more than eight statements, in a block of more than 63. The kinds with two parts are odd; the other odd
// ones have no parts, and so no eight statements. Below these sizes an entry takes longer than the walk; `react` lends no room for it either.
fn is_kept(table: &Table, task: Task) -> bool
    requires { task.at < 512 }
{
    matches!(task.going, Going::Started | Going::Resumed)
        && table.sizes[0] > 63
        && table.kinds[task.at] % 2 == 1
        && table.sizes[task.at] > 8
}

// Where what is found of a local's body with the signal unknown is kept. Nested locals have numbers near each other, so 16 places hold them apart.
fn body_entry(s: u16, task: Task, mark: Mark) -> usize
    ensures { result < 1024 }
{
    let at = 4 * (wide(s) % 16);
    let going = task.going;
    match going {
        Going::Resumed => match mark {
            Mark::Plus => at,
            Mark::Open => at + 1,
        },
        _ => match mark {
            Mark::Plus => at + 2,
            Mark::Open => at + 3,
        },
    }
}

// Where what is found of a task is kept: behind the locals' 64 entries; resumed half the places further, so that a loop's body started again does not take its place.
fn task_entry(task: Task) -> usize
    ensures { result < 1024 }
{
    let at = task.at % 256;
    let going = task.going;
    match going {
        Going::Resumed => (at + 128) % 256 + 64,
        _ => at + 64,
    }
}

// Can under a mark, and must if the mark is plus: what was kept of the task, or what is found now.
#[cycle(walk_walk_body_walk_chain_walk_local_walk_now)]
pub fn walk(
    table: &Table,
    live: &[bool; 512],
    memo: &mut [u64],
    mark: Mark,
    task: Task,
    e: Heard,
) -> Found
    requires { Placed table.now task.at × Sound table.now live.now memo.old }
    ensures { WalkedOn (mark_of mark) table.now live.now (Form.Same task) e result
        × Sound table.now live.now memo.new }
{
    if is_kept(table, task) {
        let i = task_entry(task);
        let tag = tag_of(task, mark);
        if let Some(old) = entry_at(memo, i) {
            if recalls(old, tag, e) {
                return old.found;
            }
        }
        let found = walk_now(table, live, memo, mark, task, e);
        let new = Entry {
            tag,
            event: e,
            found,
        };
        note(memo, i, new);
        return found;
    }
    walk_now(table, live, memo, mark, task, e)
}

// By the task's form.
#[cycle(walk_walk_body_walk_chain_walk_local_walk_now)]
fn walk_now(
    table: &Table,
    live: &[bool; 512],
    memo: &mut [u64],
    mark: Mark,
    task: Task,
    e: Heard,
) -> Found
    requires { Placed table.now task.at × Sound table.now live.now memo.old }
    ensures { WalkedOn (mark_of mark) table.now live.now (Form.Same task) e result
        × Sound table.now live.now memo.new }
{
    let form = walk_form(table, live, task);
    match form {
        Form::Done => sure(silent(Code(0))),
        Form::Stay(_) => sure(silent(Code(1))),
        Form::Keep(_) => sure(silent(Code(1))),
        Form::Say(s) => sure(saying(s)),
        Form::Leave(d) => sure(silent(code_of(d))),
        Form::Test(s, p, q) => match status_at(e, s) {
            Seen::Present => tested(s, walk(table, live, memo, mark, p, e)),
            Seen::Absent => tested(s, walk(table, live, memo, mark, q, e)),
            Seen::Unknown => {
                let a = walk(table, live, memo, Mark::Open, p, e);
                doubted(s, a, walk(table, live, memo, Mark::Open, q, e))
            }
        },
        Form::Catch(p) => caught(walk(table, live, memo, mark, p, e)),
        Form::Scope(s, p) => walk_local(table, live, memo, mark, s, p, e),
        Form::Chain(p, q) => walk_chain(table, live, memo, mark, p, q, e),
        Form::Beside(p, q) => {
            let a = walk(table, live, memo, mark, p, e);
            beside(a, walk(table, live, memo, mark, q, e))
        }
        Form::Same(p) => walk(table, live, memo, mark, p, e),
    }
}

// A local's body with the signal unknown: what was kept of it at an event below, where that settles the signal, or what is found now.
#[cycle(walk_walk_body_walk_chain_walk_local_walk_now)]
pub fn walk_body(
    table: &Table,
    live: &[bool; 512],
    memo: &mut [u64],
    mark: Mark,
    s: u16,
    p: Task,
    doubt: Heard,
) -> Entry
    requires { Placed table.now p.at × Sound table.now live.now memo.old }
    ensures { Settling (mark_of mark) table.now live.now s p doubt result
        × Sound table.now live.now memo.new }
{
    let i = body_entry(s, p, mark);
    let tag = tag_of(p, mark);
    if let Some(old) = entry_at(memo, i) {
        if settles(old, tag, mark, s, doubt) {
            return old;
        }
    }
    let found = walk(table, live, memo, mark, p, doubt);
    let new = Entry {
        tag,
        event: doubt,
        found,
    };
    note(memo, i, new);
    new
}

// A local: its body under its own mark with the signal unknown, and once more unless that is the answer.
#[cycle(walk_walk_body_walk_chain_walk_local_walk_now)]
fn walk_local(
    table: &Table,
    live: &[bool; 512],
    memo: &mut [u64],
    mark: Mark,
    s: u16,
    p: Task,
    e: Heard,
) -> Found
    requires { Placed table.now p.at × Sound table.now live.now memo.old }
    ensures { WalkedOn (mark_of mark) table.now live.now (Form.Scope s p) e result
        × Sound table.now live.now memo.new }
{
    let doubt = heard_with(e, s, Seen::Unknown);
    let x = walk_body(table, live, memo, mark, s, p, doubt);
    match settled_for(mark, s, x.found.said) {
        Seen::Unknown => hidden(s, x.found),
        v => {
            let known = heard_with(e, s, v);
            hidden_after(s, x, walk(table, live, memo, mark, p, known))
        }
    }
}

// A sequence: the second part is asked under plus only if the first must give 0, and not at all if the first cannot.
#[cycle(walk_walk_body_walk_chain_walk_local_walk_now)]
fn walk_chain(
    table: &Table,
    live: &[bool; 512],
    memo: &mut [u64],
    mark: Mark,
    p: Task,
    q: Task,
    e: Heard,
) -> Found
    requires { (Placed table.now p.at × Placed table.now q.at)
        × Sound table.now live.now memo.old }
    ensures { WalkedOn (mark_of mark) table.now live.now (Form.Chain p q) e result
        × Sound table.now live.now memo.new }
{
    let a = walk(table, live, memo, mark, p, e);
    let onward = mark_onward(mark, a.said.must.codes);
    if goes_on(onward, a.said.can.codes) {
        let b = walk(table, live, memo, onward, q, e);
        return followed(a, b);
    }
    unfollowed(a, nothing_given())
}

// Must and can where nothing is kept.
pub fn must_can(table: &Table, live: &[bool; 512], mark: Mark, task: Task, e: Heard) -> MustCan
    requires { Placed table.now task.at }
    ensures { Walked (mark_of mark) table.now live.now (Form.Same task) e result }
{
    let mut none = [0u64; 1];
    let a = walk(table, live, &mut none, mark, task, e);
    a.said
}
