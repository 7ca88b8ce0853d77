// The moves made: on the levels, the records and the small state that goes from step to step.
ghost use Rattle.std.specs.Prelude.{◌≡◌, List, ℕ, ◌≤◌, ◌<◌, length, Ok};
ghost use Rattle.read_steps.specs.Records.{Sized};
ghost use Rattle.read_steps.specs.declared.levels.Level.{Level};
ghost use Rattle.read_steps.specs.Moves.{next_after};
ghost use Rattle.read_steps.specs.Holding.{Does};
ghost use Rattle.read_steps.specs.declared.moves.Move.TheVariants.{Put, Open, Bracket, Close, Sequence, Parallel, Turn, When};

use crate::bytes::{append, insert, put_operand};
use crate::levels::{Level, Scope};
use crate::modes::Mode;

// What may stand next; whether nothing stands yet where the innermost level begins; how many bytes of records there are, how many levels
// around the innermost, which number the next local has; and the innermost level.
#[derive(Clone, Copy)]
pub struct Stage {
    pub mode: Mode,
    pub fresh: bool,
    pub size: u16,
    pub depth: usize,
    pub next: usize,
    pub top: Level,
}

// Why a token is refused: it is outside the grammar or its name is at fault, or over 1,024 places would be open.
#[derive(Clone, Copy, PartialEq, Eq, Debug)]
pub enum Fault {
    Grammar,
    Deep,
}

// One record more at the end, behind which a statement has ended.
pub fn put_step(out: &mut [u8], s: Stage, kind: u16, operand: usize) -> Stage
    requires out_len { length out.old ≡ 3092 }
    requires sized { Sized kind }
    ensures { (levels : List Level) (name : ℕ) → Does levels out.old s name (Put kind operand) levels out.new (Ok result) }
{
    let size = append(out, s.size, kind, (operand % 65536) as u16);
    Stage {
        mode: Mode::After,
        size,
        ..s
    }
}

// The number of the next local inside a level of a kind.
fn next_number(kind: Scope, next: usize) -> usize
    requires { next < 18446744073709551615 }
    ensures { result ≡ next_after kind next }
{
    match kind {
        Scope::SignalBody => next + 1,
        _ => next,
    }
}

// One record more and a level that begins behind it.
pub fn open_step(
    levels: &mut [Level; 1024],
    out: &mut [u8],
    s: Stage,
    kind: u16,
    operand: usize,
    level: Scope,
    mode: Mode,
    name: usize,
) -> Result<Stage, Fault>
    requires out_len { length out.old ≡ 3092 }
    requires sized { Sized kind }
    requires next_bound { s.next < 18446744073709551615 }
    requires depth_bound { s.depth ≤ 1024 }
    ensures { Does levels.old out.old s name (Open kind operand level mode) levels.new out.new result }
{
    let depth = s.depth;
    if depth == 1024 {
        return Err(Fault::Deep);
    }
    let top = s.top;
    levels[depth] = top;
    let size = append(out, s.size, kind, (operand % 65536) as u16);
    let next = next_number(level, s.next);
    let inner = Level {
        kind: level,
        start: size,
        arm: size,
        link: size,
        name,
        number: s.next,
        brackets: 0,
    };
    Ok(Stage {
        mode,
        fresh: true,
        size,
        depth: depth + 1,
        next,
        top: inner,
    })
}

// A bracket: counted where nothing stands yet at the innermost level, else a level of its own.
pub fn bracket_step(levels: &mut [Level; 1024], s: Stage) -> Result<Stage, Fault>
    requires brackets_bound { s.top.brackets < 18446744073709551615 }
    requires depth_bound { s.depth ≤ 1024 }
    ensures { (out : List ℕ) (name : ℕ) → Does levels.old out s name Bracket levels.new out result }
{
    let top = s.top;
    if s.fresh {
        let top = Level {
            brackets: top.brackets + 1,
            ..top
        };
        return Ok(Stage {
            mode: Mode::Due,
            top,
            ..s
        });
    }
    let depth = s.depth;
    if depth == 1024 {
        return Err(Fault::Deep);
    }
    levels[depth] = top;
    let size = s.size;
    let inner = Level {
        kind: Scope::InBrackets,
        start: size,
        arm: size,
        link: size,
        name: 0,
        number: 0,
        brackets: 0,
    };
    Ok(Stage {
        mode: Mode::Due,
        fresh: true,
        depth: depth + 1,
        top: inner,
        ..s
    })
}

// The innermost level closed: a bracket of its place, or the place.
pub fn close_step(levels: &[Level; 1024], s: Stage, mode: Mode) -> Result<Stage, Fault>
    requires { s.depth ≤ 1024 }
    ensures { (out : List ℕ) (name : ℕ) → Does levels.now out s name (Close mode) levels.now out result }
{
    let top = s.top;
    if 0 < top.brackets {
        let top = Level {
            brackets: top.brackets - 1,
            arm: top.start,
            link: top.start,
            ..top
        };
        return Ok(Stage { mode, top, ..s });
    }
    let depth = s.depth;
    if depth == 0 {
        return Err(Fault::Grammar);
    }
    let outer = levels[depth - 1];
    Ok(Stage {
        mode,
        depth: depth - 1,
        top: outer,
        ..s
    })
}

// A sequence record before the last basic statement; the next one is due.
pub fn sequence_step(out: &mut [u8], s: Stage) -> Stage
    requires { length out.old ≡ 3092 }
    ensures { (levels : List Level) (name : ℕ) → Does levels out.old s name (Sequence) levels out.new (Ok result) }
{
    let top = s.top;
    let size = insert(out, s.size, top.link, 21);
    Stage {
        mode: Mode::Due,
        fresh: false,
        size,
        top: Level { link: size, ..top },
        ..s
    }
}

// A parallel record before the last arm; the next one is due.
pub fn parallel_step(out: &mut [u8], s: Stage) -> Stage
    requires { length out.old ≡ 3092 }
    ensures { (levels : List Level) (name : ℕ) → Does levels out.old s name (Parallel) levels out.new (Ok result) }
{
    let top = s.top;
    let size = insert(out, s.size, top.arm, 23);
    Stage {
        mode: Mode::Due,
        fresh: false,
        size,
        top: Level {
            arm: size,
            link: size,
            ..top
        },
        ..s
    }
}

// The second part of a present begins where its first ends.
pub fn turn_step(s: Stage) -> Stage
    ensures { (levels : List Level) (out : List ℕ) (name : ℕ) → Does levels out s name Turn levels out (Ok result) }
{
    let size = s.size;
    let inner = Level {
        kind: Scope::EndPart,
        start: size,
        arm: size,
        link: size,
        name: 0,
        number: 0,
        brackets: 0,
    };
    Stage {
        mode: Mode::Due,
        fresh: true,
        top: inner,
        ..s
    }
}

// The signal of the suspend that was closed.
pub fn when_step(out: &mut [u8], s: Stage, signal: usize) -> Stage
    requires { length out.old ≡ 3092 }
    ensures { (levels : List Level) (name : ℕ) → Does levels out.old s name (When signal) levels out.new (Ok result) }
{
    put_operand(out, s.size, s.top.link, (signal % 65536) as u16);
    Stage {
        mode: Mode::After,
        ..s
    }
}
