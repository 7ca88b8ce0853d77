// The next state: must's code and the pauses kept, by one walk at the final event ("Next state").
ghost use Rattle.sets.specs.Words.{set_of};
ghost use Rattle.forms.specs.Forms.{Placed, Formed};
ghost use Rattle.walk.specs.Memo.{Sound};
ghost use Rattle.evaluate.specs.Next.{Keeping};

use forms::active::held_pauses;
use forms::form::{Form, Going, Task, resumed_form, started_form};
use tables::Table;
use tables::kinds::{Code, code_of};
use walk::walk_body;
use words::events::{Heard, Seen, heard_with, status_at};
use words::given::{Mark, gives_zero, settled_for};
use words::pauses::{
    Kept, kept_again, kept_beside, kept_caught, kept_chain, kept_here, kept_none, kept_unknown,
    one_pause,
};

// What the task asks, as `form_of` says it. Each walk has a function of its own for that: with one caller it is compiled into its walk,
// and a round takes a fifth less time.
fn kept_form(table: &Table, live: &[bool; 512], task: Task) -> Form
    requires { Placed table.now task.at }
    ensures { Formed table.now live.now task result }
{
    let at = task.at;
    let going = task.going;
    match going {
        Going::Started => started_form(table, at),
        Going::Resumed => resumed_form(table, live, at),
        Going::Held => Form::Keep(at),
        Going::Idle => Form::Done,
    }
}

// Must's codes, and the pauses that the task keeps.
pub(crate) fn next_kept(
    table: &Table,
    live: &[bool; 512],
    memo: &mut [u64],
    set: [u64; 2],
    task: Task,
    e: Heard,
) -> Kept
    requires { Placed table.now task.at × Sound table.now live.now memo.old }
    ensures { Keeping (set_of set) table.now live.now (Form.Same task) e result
        × Sound table.now live.now memo.new }
{
    let form = kept_form(table, live, task);
    match form {
        Form::Done => kept_none(Code(0)),
        Form::Stay(n) => kept_here(one_pause(n)),
        Form::Keep(i) => kept_here(held_pauses(table, set, i)),
        Form::Say(_) => kept_none(Code(0)),
        Form::Leave(d) => kept_none(code_of(d)),
        Form::Test(s, p, q) => match status_at(e, s) {
            Seen::Present => kept_again(next_kept(table, live, memo, set, p, e)),
            Seen::Absent => kept_again(next_kept(table, live, memo, set, q, e)),
            Seen::Unknown => kept_unknown(),
        },
        Form::Catch(p) => kept_caught(next_kept(table, live, memo, set, p, e)),
        Form::Scope(s, p) => {
            let doubt = heard_with(e, s, Seen::Unknown);
            let a = walk_body(table, live, memo, Mark::Plus, s, p, doubt);
            let v = settled_for(Mark::Plus, s, a.found.said);
            let known = heard_with(e, s, v);
            kept_again(next_kept(table, live, memo, set, p, known))
        }
        Form::Chain(p, q) => {
            let a = next_kept(table, live, memo, set, p, e);
            if gives_zero(a.codes) {
                return kept_chain(a, next_kept(table, live, memo, set, q, e));
            }
            kept_chain(a, kept_unknown())
        }
        Form::Beside(p, q) => {
            let a = next_kept(table, live, memo, set, p, e);
            kept_beside(a, next_kept(table, live, memo, set, q, e))
        }
        Form::Same(p) => next_kept(table, live, memo, set, p, e),
    }
}
