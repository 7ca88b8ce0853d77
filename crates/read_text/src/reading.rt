// The tokens of a whole text, one after the other.
ghost use Rattle.std.specs.Prelude.{◌≡◌, ◌≤◌, ◌<◌, length};
ghost use Rattle.text.specs.Tokens.{tokens_placed};
ghost use Rattle.text.specs.Reader.{begun, read_placed};
ghost use Rattle.read_text.specs.Reading.{first_stage, first_reader, BodyTakes, in_statement, TakesAny, Ready, may_end, refused_as, Scanned};

use crate::heading::{Awaits, Lead, Reader, head_name, head_number, head_sign, inputs_ended};
use read_steps::body::{body_step, closer};
use read_steps::levels::{Level, OUTERMOST, Scope};
use read_steps::modes::Mode;
use read_steps::steps::{Fault, Stage};
use refusals::{Refused, Why};
use text::tokens::{Kind, Token, token_at};

// The first statement is due at the outermost level.
fn first_stage(next: usize) -> Stage
    ensures { result ≡ first_stage next }
{
    Stage {
        mode: Mode::Due,
        fresh: true,
        size: 0,
        depth: 0,
        next,
        top: OUTERMOST,
    }
}

// Nothing was read yet.
fn first_reader() -> Reader
    ensures { result ≡ first_reader }
{
    Reader {
        awaits: Awaits::VersionDue,
        version: 0,
        inputs: 0,
        signals: 0,
        end: 0,
        stage: first_stage(0),
    }
}

// One token of the statement.
fn body_token(
    text: &[u8],
    levels: &mut [Level; 1024],
    out: &mut [u8],
    r: Reader,
    t: Token,
) -> Result<Reader, Fault>
    requires out_len { length out.old ≡ 3092 }
    requires next_bound { r.stage.next < 18446744073709551615 }
    requires brackets_bound { r.stage.top.brackets < 18446744073709551615 }
    requires depth_bound { r.stage.depth ≤ 1024 }
    ensures { BodyTakes text.now levels.old out.old r t levels.new out.new result }
{
    let stage = body_step(text, levels, out, r.stage, t, r.end)?;
    Ok(Reader { stage, ..r })
}

// One token, wherever the reader is.
fn take(
    text: &[u8],
    levels: &mut [Level; 1024],
    out: &mut [u8],
    r: Reader,
    t: Token,
) -> Result<Reader, Fault>
    requires { Ready text.now levels.old out.old r t }
    ensures { TakesAny text.now levels.old out.old r t levels.new out.new result }
{
    if let Awaits::Statement = r.awaits {
        return body_token(text, levels, out, r, t);
    }
    match t.kind {
        Kind::Sign(sign) => match head_sign(r.awaits, sign) {
            Lead::Fault => Err(Fault::Grammar),
            Lead::Next(awaits) => Ok(Reader { awaits, ..r }),
            Lead::InputsEnd => Ok(inputs_ended(r)),
            Lead::Body => body_token(text, levels, out, begun(r, t.start), t),
        },
        Kind::Name => head_name(text, r, t),
        Kind::Number(version) => head_number(r, version),
        Kind::Nothing | Kind::End => Err(Fault::Grammar),
    }
}

// The header's names end before the statement's first token.
fn begun(r: Reader, end: usize) -> Reader
    ensures { result ≡ in_statement r end (first_stage r.signals) }
{
    Reader {
        awaits: Awaits::Statement,
        end,
        stage: first_stage(r.signals),
        ..r
    }
}

// The text may end here.
fn may_end(r: Reader) -> bool
    ensures { result ≡ may_end r }
{
    if r.awaits != Awaits::Statement {
        return false;
    }
    if r.stage.mode != Mode::After {
        return false;
    }
    closer(r.stage.top) == Scope::Outermost
}

// Why a text is refused: a fault stands at its place, a text with over 1,024 places open is refused as a whole.
fn refused(fault: Fault, place: usize) -> Refused
    ensures { result ≡ refused_as fault place }
{
    match fault {
        Fault::Grammar => Refused {
            why: Why::Text,
            place,
        },
        Fault::Deep => Refused {
            why: Why::Limit,
            place: 0,
        },
    }
}

// All tokens of a text, the levels in a lent array.
fn scan(text: &[u8], levels: &mut [Level; 1024], out: &mut [u8]) -> Result<Reader, Refused>
    requires out_len { length out.old ≡ 3092 }
    ensures { Scanned out.new result (read_placed begun (tokens_placed text.now) (length text.now)) }
{
    let mut at: usize = 0;
    let mut r = first_reader();
    loop {
        let t = token_at(text, at);
        let place = t.start;
        if text.len() <= place {
            if may_end(r) {
                return Ok(r);
            }
            return Err(refused(Fault::Grammar, text.len()));
        }
        r = take(text, levels, out, r, t).map_err(|fault| refused(fault, place))?;
        at = t.end;
    }
}

// All tokens of a text. The levels are given back before the block is checked, which has arrays of its own.
pub fn read_tokens(text: &[u8], out: &mut [u8]) -> Result<Reader, Refused>
    requires { length out.old ≡ 3092 }
    ensures { Scanned out.new result (read_placed begun (tokens_placed text.now) (length text.now)) }
{
    let mut levels = [OUTERMOST; 1024];
    scan(text, &mut levels, out)
}
