// What a token does, by tables: in which state it may stand, and the move that it makes.
ghost use Rattle.std.specs.Prelude.{◌≡◌};
ghost use Rattle.read_steps.specs.Moves.{due_move, closed_move, after_move, sign_move, signal_move, trap_move, new_move, found_move, expected};

use crate::found::Found;
use crate::levels::Scope;
use crate::modes::Mode;
use text::signs::{
    BESIDE, BRACKET, CLOSED, ELSE, EMIT, END, EXIT, IN, LOOP, NOTHING, PAUSE, PRESENT, SEMICOLON,
    SIGNAL, SUSPEND, THEN, TRAP, WHEN,
};

// A fault; another state; a record at the end; a record and a new level, by what opened it, with the next state; one bracket; the innermost
// level closed; a sequence, a parallel, the second part of a present, and the signal of a suspend.
#[derive(Clone, Copy)]
pub enum Move {
    Fault,
    To(Mode),
    Put(u16, usize),
    Open(u16, usize, Scope, Mode),
    Bracket,
    Close(Mode),
    Sequence,
    Parallel,
    Turn,
    When(usize),
}

// Where a statement is due.
fn due_move(sign: u16) -> Move
    ensures { result ≡ due_move sign }
{
    match sign {
        NOTHING => Move::Put(16, 0),
        PAUSE => Move::Put(17, 0),
        EMIT => Move::To(Mode::EmitName),
        EXIT => Move::To(Mode::ExitName),
        PRESENT => Move::To(Mode::PresentName),
        TRAP => Move::To(Mode::TrapName),
        SIGNAL => Move::To(Mode::SignalName),
        SUSPEND => Move::Open(20, 0, Scope::SuspendBody, Mode::Due),
        LOOP => Move::Open(22, 0, Scope::EndPart, Mode::Due),
        BRACKET => Move::Bracket,
        _ => Move::Fault,
    }
}

// A move where the sign is the one expected, else a fault.
fn expected(sign: u16, key: u16, m: Move) -> Move
    ensures { result ≡ expected sign key m }
{
    if sign == key {
        return m;
    }
    Move::Fault
}

// What closes a level.
fn closed_move(closer: Scope, sign: u16) -> Move
    ensures { result ≡ closed_move closer sign }
{
    match closer {
        Scope::Outermost => Move::Fault,
        Scope::ThenPart => expected(sign, ELSE, Move::Turn),
        Scope::SuspendBody => expected(sign, WHEN, Move::Close(Mode::WhenName)),
        Scope::InBrackets => expected(sign, CLOSED, Move::Close(Mode::After)),
        Scope::EndPart => expected(sign, END, Move::Close(Mode::After)),
        Scope::TrapBody => expected(sign, END, Move::Close(Mode::After)),
        Scope::SignalBody => expected(sign, END, Move::Close(Mode::After)),
    }
}

// After a statement.
fn after_move(closer: Scope, sign: u16) -> Move
    ensures { result ≡ after_move closer sign }
{
    if sign == SEMICOLON {
        return Move::Sequence;
    }
    if sign == BESIDE {
        return Move::Parallel;
    }
    closed_move(closer, sign)
}

// A keyword or a mark.
pub fn sign_move(mode: Mode, closer: Scope, sign: u16) -> Move
    ensures { result ≡ sign_move mode closer sign }
{
    match mode {
        Mode::Due => due_move(sign),
        Mode::After => after_move(closer, sign),
        Mode::ThenDue => expected(sign, THEN, Move::To(Mode::Due)),
        Mode::InDue => expected(sign, IN, Move::To(Mode::Due)),
        _ => Move::Fault,
    }
}

// A name of a signal, by its number.
fn signal_move(mode: Mode, n: usize) -> Move
    ensures { result ≡ signal_move mode n }
{
    match mode {
        Mode::EmitName => Move::Put(18, n),
        Mode::PresentName => Move::Open(19, n, Scope::ThenPart, Mode::ThenDue),
        Mode::WhenName => Move::When(n),
        _ => Move::Fault,
    }
}

// A name of a trap, by the depth of an exit of it.
fn trap_move(mode: Mode, d: usize) -> Move
    ensures { result ≡ trap_move mode d }
{
    match mode {
        Mode::ExitName => Move::Put(25, d),
        _ => Move::Fault,
    }
}

// A name that is not declared.
fn new_move(mode: Mode, next: usize) -> Move
    ensures { result ≡ new_move mode next }
{
    match mode {
        Mode::TrapName => Move::Open(24, 0, Scope::TrapBody, Mode::InDue),
        Mode::SignalName => Move::Open(26, next, Scope::SignalBody, Mode::InDue),
        _ => Move::Fault,
    }
}

// A name, by what it stands for.
pub fn name_move(mode: Mode, f: Found, next: usize) -> Move
    ensures { result ≡ found_move mode f next }
{
    match f {
        Found::Nothing => new_move(mode, next),
        Found::Signal(n) => signal_move(mode, n),
        Found::Trap(d) => trap_move(mode, d),
    }
}
