// What a statement of the table has to do in this instant, started or resumed.
ghost use Rattle.std.specs.Prelude.{◌≡◌, Bool, cond, false, List, ◌+◌, ◌<◌, get_or};
ghost use Rattle.forms.specs.Forms.{Placed, Formed};

use tables::Table;
use tables::kinds::Depth;
use tables::loops::second_at;

// How a statement is taken: started, resumed, held as it is (a suspended body), or not at all (an arm of a parallel without an
// active pause, a finished block).
#[derive(Clone, Copy)]
pub enum Going {
    Started,
    Resumed,
    Held,
    Idle,
}

// What there is to do of a statement: its number, and how it is taken.
#[derive(Clone, Copy)]
pub struct Task {
    pub at: usize,
    pub going: Going,
}

// The things that there are to do, with the tasks that they leave.
#[derive(Clone, Copy)]
pub enum Form {
    Done,
    Stay(u16),
    Keep(usize),
    Say(u16),
    Leave(Depth),
    Test(u16, Task, Task),
    Catch(Task),
    Scope(u16, Task),
    Chain(Task, Task),
    Beside(Task, Task),
    Same(Task),
}

// Whether a statement holds an active pause.
pub(crate) fn live_at(live: &[bool; 512], at: usize) -> bool
    ensures { at < 512 → result ≡ get_or live.now at false }
{
    at < 512 && live[at]
}

fn chosen(first: bool, p: Task, q: Task) -> Task
    ensures { result ≡ cond first p q }
{
    if first { p } else { q }
}

fn arm(active: bool, at: usize) -> Task
    ensures { result ≡ record { at = at; going = cond active Going.Resumed Going.Idle } }
{
    let going = if active { Going::Resumed } else { Going::Idle };
    Task { at, going }
}

pub fn started_form(table: &Table, at: usize) -> Form
    requires { Placed table.now at }
    ensures { (live : List Bool) → Formed table.now live (record { at = at; going = Going.Started }) result }
{
    let kind = table.kinds[at];
    let operand = table.operands[at];
    let p = Task {
        at: at + 1,
        going: Going::Started,
    };
    let q = Task {
        at: second_at(table, at),
        going: Going::Started,
    };
    match kind {
        16 => Form::Done,
        17 => Form::Stay(operand),
        18 => Form::Say(operand),
        19 => Form::Test(operand, p, q),
        20 => Form::Same(p),
        21 => Form::Chain(p, q),
        22 => Form::Same(p),
        23 => Form::Beside(p, q),
        24 => Form::Catch(p),
        25 => Form::Leave(Depth(operand)),
        26 => Form::Scope(operand, p),
        _ => Form::Done,
    }
}

pub fn resumed_form(table: &Table, live: &[bool; 512], at: usize) -> Form
    requires { Placed table.now at }
    ensures { Formed table.now live.now (record { at = at; going = Going.Resumed }) result }
{
    let kind = table.kinds[at];
    let operand = table.operands[at];
    let next = second_at(table, at);
    let first_live = live_at(live, at + 1);
    let next_live = live_at(live, next);
    let held = Task {
        at: at + 1,
        going: Going::Held,
    };
    let p = Task {
        at: at + 1,
        going: Going::Resumed,
    };
    let again = Task {
        at: at + 1,
        going: Going::Started,
    };
    let q = Task {
        at: next,
        going: Going::Resumed,
    };
    let after = Task {
        at: next,
        going: Going::Started,
    };
    match kind {
        19 => Form::Same(chosen(first_live, p, q)),
        20 => Form::Test(operand, held, p),
        21 => {
            if first_live {
                Form::Chain(p, after)
            } else {
                Form::Same(q)
            }
        }
        22 => Form::Chain(p, again),
        23 => Form::Beside(arm(first_live, at + 1), arm(next_live, next)),
        24 => Form::Catch(p),
        26 => Form::Scope(operand, p),
        _ => Form::Done,
    }
}

pub fn form_of(table: &Table, live: &[bool; 512], task: Task) -> Form
    requires { Placed table.now task.at }
    ensures { Formed table.now live.now task result }
{
    let at = task.at;
    let going = task.going;
    match going {
        Going::Started => started_form(table, at),
        Going::Resumed => resumed_form(table, live, at),
        Going::Held => Form::Keep(at),
        Going::Idle => Form::Done,
    }
}
