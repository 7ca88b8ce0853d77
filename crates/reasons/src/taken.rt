// The walk that marks what must be reached at an event and is asked for.
ghost use Rattle.forms.specs.Forms.{Placed};
ghost use Rattle.reasons.specs.Taking.{wanted_of, Taking};

use crate::wanted::{Wanted, mark, wanted_here};
use code_sets::{followed_codes, larger, lowered};
use forms::form::{Form, Task, form_of};
use tables::Table;
use tables::codes::code_bit;
use tables::kinds::code_of;
use walk::must_can;
use words::events::{Heard, Seen, heard_with, status_at};
use words::given::{Mark, gives_zero, settled_for};

// Must's codes. A statement marks itself, and then what its form has it reach.
pub(crate) fn taken(
    table: &Table,
    live: &[bool; 512],
    w: Wanted,
    task: Task,
    e: Heard,
    marks: &mut [bool; 512],
) -> u32
    requires { Placed table.now task.at }
    ensures { Taking table.now live.now (wanted_of w) task e marks.old marks.new result }
{
    let form = form_of(table, live, task);
    let at = task.at;
    let going = task.going;
    let here = wanted_here(w, going, form, e);
    mark(marks, at, here);
    match form {
        Form::Done => 1,
        Form::Stay(_) => 2,
        Form::Keep(_) => 2,
        Form::Say(_) => 1,
        Form::Leave(d) => code_bit(code_of(d)),
        Form::Test(s, p, q) => match status_at(e, s) {
            Seen::Present => taken(table, live, w, p, e, marks),
            Seen::Absent => taken(table, live, w, q, e, marks),
            Seen::Unknown => 0,
        },
        Form::Catch(p) => lowered(taken(table, live, w, p, e, marks)),
        Form::Scope(s, p) => {
            let doubt = heard_with(e, s, Seen::Unknown);
            let a = must_can(table, live, Mark::Plus, p, doubt);
            let v = settled_for(Mark::Plus, s, a);
            let known = heard_with(e, s, v);
            taken(table, live, w, p, known, marks)
        }
        Form::Chain(p, q) => {
            let a = taken(table, live, w, p, e, marks);
            if gives_zero(a) {
                let b = taken(table, live, w, q, e, marks);
                return followed_codes(a, b);
            }
            followed_codes(a, 0)
        }
        Form::Beside(p, q) => {
            let a = taken(table, live, w, p, e, marks);
            let b = taken(table, live, w, q, e, marks);
            larger(a, b)
        }
        Form::Same(p) => taken(table, live, w, p, e, marks),
    }
}
