// One token of the statement: its move, and the move made.
ghost use Rattle.std.specs.Prelude.{◌≡◌, ◌≤◌, ◌<◌, length};
ghost use Rattle.read_steps.specs.Holding.{Safe, Does, closer_in, Takes};

use crate::found::find;
use crate::levels::{Level, Scope};
use crate::moves::{Move, name_move, sign_move};
use crate::steps::{
    Fault, Stage, bracket_step, close_step, open_step, parallel_step, put_step, sequence_step,
    turn_step, when_step,
};
use text::tokens::{Kind, Token};

// A move made.
fn make(
    levels: &mut [Level; 1024],
    out: &mut [u8],
    s: Stage,
    m: Move,
    name: usize,
) -> Result<Stage, Fault>
    requires out_len { length out.old ≡ 3092 }
    requires safe { Safe m }
    requires next_bound { s.next < 18446744073709551615 }
    requires brackets_bound { s.top.brackets < 18446744073709551615 }
    requires depth_bound { s.depth ≤ 1024 }
    ensures { Does levels.old out.old s name m levels.new out.new result }
{
    match m {
        Move::Fault => Err(Fault::Grammar),
        Move::To(mode) => Ok(Stage { mode, ..s }),
        Move::Put(kind, x) => Ok(put_step(out, s, kind, x)),
        Move::Open(kind, x, level, mode) => open_step(levels, out, s, kind, x, level, mode, name),
        Move::Bracket => bracket_step(levels, s),
        Move::Close(mode) => close_step(levels, s, mode),
        Move::Sequence => Ok(sequence_step(out, s)),
        Move::Parallel => Ok(parallel_step(out, s)),
        Move::Turn => Ok(turn_step(s)),
        Move::When(x) => Ok(when_step(out, s, x)),
    }
}

// What closes the innermost level.
pub fn closer(l: Level) -> Scope
    ensures { result ≡ closer_in l }
{
    if l.brackets == 0 {
        return l.kind;
    }
    Scope::InBrackets
}

// One token of the statement; the header's names end before a place.
pub fn body_step(
    text: &[u8],
    levels: &mut [Level; 1024],
    out: &mut [u8],
    s: Stage,
    t: Token,
    end: usize,
) -> Result<Stage, Fault>
    requires out_len { length out.old ≡ 3092 }
    requires next_bound { s.next < 18446744073709551615 }
    requires brackets_bound { s.top.brackets < 18446744073709551615 }
    requires depth_bound { s.depth ≤ 1024 }
    ensures { Takes text.now end levels.old out.old s t levels.new out.new result }
{
    let start = t.start;
    match t.kind {
        Kind::Sign(sign) => {
            let m = sign_move(s.mode, closer(s.top), sign);
            make(levels, out, s, m, start)
        }
        Kind::Name => {
            let f = find(text, levels, s, end, start);
            let m = name_move(s.mode, f, s.next);
            make(levels, out, s, m, start)
        }
        Kind::Number(_) | Kind::Nothing | Kind::End => Err(Fault::Grammar),
    }
}
