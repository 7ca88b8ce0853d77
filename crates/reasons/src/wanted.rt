// Which of the statements reached are asked for, and their marks.
ghost use Rattle.std.specs.Prelude.{◌≡◌, ◌&&◌, ◌<◌};
ghost use Rattle.rules.specs.Taken.{wants, wants_emit, wants_test, itself_if};
ghost use Rattle.words.specs.Words.{event_of, seen_as};
ghost use Rattle.reasons.specs.Taking.{wanted_of, goes, hit, Narrow, Marked};

use forms::form::{Form, Going};
use words::events::{Heard, Seen, status_at};

// Every one, the emits of a signal, or the tests whose signal is undecided there.
#[derive(Clone, Copy)]
pub enum Wanted {
    Every,
    EmitOf(u16),
    UndecidedTest,
}

fn wants(w: Wanted) -> bool
    ensures { result ≡ wants (wanted_of w) }
{
    matches!(w, Wanted::Every)
}

fn wants_emit(w: Wanted, s: u16) -> bool
    ensures { result ≡ wants_emit (wanted_of w) s }
{
    match w {
        Wanted::Every => true,
        Wanted::EmitOf(t) => s == t,
        Wanted::UndecidedTest => false,
    }
}

fn wants_test(w: Wanted, v: Seen) -> bool
    ensures { result ≡ wants_test (wanted_of w) (seen_as v) }
{
    match w {
        Wanted::Every => true,
        Wanted::EmitOf(_) => false,
        Wanted::UndecidedTest => matches!(v, Seen::Unknown),
    }
}

// Whether a statement that is reached is asked for, by what it has to do: only an emit says, and only a present started and a suspend resumed test.
fn wanted_in(w: Wanted, form: Form, e: Heard) -> bool
    ensures { Narrow form → result ≡ hit (wanted_of w) form (event_of e) }
{
    match form {
        Form::Say(s) => wants_emit(w, s),
        Form::Test(s, _, _) => wants_test(w, status_at(e, s)),
        _ => wants(w),
    }
}

// A suspended body and an arm without an active pause are not reached.
fn reached(going: Going) -> bool
    ensures { result ≡ goes going }
{
    matches!(going, Going::Started | Going::Resumed)
}

pub(crate) fn wanted_here(w: Wanted, going: Going, form: Form, e: Heard) -> bool
    ensures { Narrow form → result ≡ (goes going && hit (wanted_of w) form (event_of e)) }
{
    reached(going) && wanted_in(w, form, e)
}

// A statement's own mark.
pub(crate) fn mark(marks: &mut [bool; 512], at: usize, wanted: bool)
    requires { at < 512 }
    ensures { Marked marks.old (itself_if wanted at) marks.new }
{
    if wanted {
        marks[at] = true;
    }
}
