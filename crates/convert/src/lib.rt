// A block of edition 2 written in edition 1: the forms of halt, sustain, await and abort, record by record, and the call.
#![tactic(auto)]

pub mod exits;
pub mod scan;
mod walk;

ghost use Rattle.std.specs.Prelude.{◌≡◌, ◌+◌, ◌≤◌, length};
ghost use Rattle.std.proofs.lemmas.List.Edits.{sets};
ghost use Rattle.writing.specs.Answers.{roomed, wrote_values, wrote_owed, out_owed};
ghost use Rattle.everyday.specs.Statements.{halt, sustain, await, abort_when};
ghost use Rattle.everyday.specs.Conversion.{as_it_is};
ghost use Rattle.converting.specs.Records.{watch_bytes, alone_bytes, bytes_before, bytes_behind};
ghost use Rattle.converting.specs.Conversions.{converting};
ghost use Rattle.convert.specs.Walk.{bytes_of};

use crate::scan::scan;
use crate::walk::{Marks, Spot, write_at};
use refusals::Refused;
use writing::{in_room, put_header, put_record};

// Some records one after the other, each by its kind and operand, and the place behind them.
fn put_records(out: &mut [u8], at: usize, records: &[(u16, u16)]) -> usize
    requires { at + length (bytes_of records.now) ≤ length out.old }
    ensures value { result ≡ at + length (bytes_of records.now) }
    ensures out_after { out.new ≡ sets out.old at (bytes_of records.now) }
{
    let mut end = at;
    for &(kind, operand) in records {
        end = put_record(out, end, kind, operand);
    }
    end
}

// loop (pause; present s then exit 0 else nothing).
pub fn put_watch(out: &mut [u8], at: usize, s: u16) -> usize
    requires { at + 28 ≤ length out.old }
    ensures value { result ≡ at + 28 }
    ensures out_after { out.new ≡ sets out.old at (watch_bytes s) }
{
    let form = [(22, 0), (21, 0), (17, 0), (19, s), (25, 0), (16, 0)];
    put_records(out, at, &form)
}

// loop pause.
pub fn put_halt(out: &mut [u8], at: usize) -> usize
    requires { at + 8 ≤ length out.old }
    ensures value { result ≡ at + 8 }
    ensures out_after { out.new ≡ sets out.old at (alone_bytes as_it_is halt) }
{
    put_records(out, at, &[(22, 0), (17, 0)])
}

// loop (emit s; pause).
pub fn put_sustain(out: &mut [u8], at: usize, s: u16) -> usize
    requires { at + 18 ≤ length out.old }
    ensures value { result ≡ at + 18 }
    ensures out_after { out.new ≡ sets out.old at (alone_bytes as_it_is (sustain s)) }
{
    put_records(out, at, &[(22, 0), (21, 0), (18, s), (17, 0)])
}

// A trap around the watching loop.
pub fn put_await(out: &mut [u8], at: usize, s: u16) -> usize
    requires { at + 32 ≤ length out.old }
    ensures value { result ≡ at + 32 }
    ensures out_after { out.new ≡ sets out.old at (alone_bytes as_it_is (await s)) }
{
    let a = put_record(out, at, 24, 0);
    put_watch(out, a, s)
}

// What stands before an abort's body: trap, parallel, sequence and suspend.
pub fn put_abort(out: &mut [u8], at: usize, s: u16) -> usize
    requires { at + 18 ≤ length out.old }
    ensures value { result ≡ at + 18 }
    ensures out_after { out.new ≡ sets out.old at (bytes_before (abort_when s)) }
{
    put_records(out, at, &[(24, 0), (23, 0), (21, 0), (20, s)])
}

// What stands behind an abort's body: exit 0 and the watching loop.
pub fn put_abort_end(out: &mut [u8], at: usize, s: u16) -> usize
    requires { at + 34 ≤ length out.old }
    ensures value { result ≡ at + 34 }
    ensures out_after { out.new ≡ sets out.old at (bytes_behind (abort_when s)) }
{
    let a = put_record(out, at, 25, 0);
    put_watch(out, a, s)
}

// Writes a block of edition 2 in edition 1, the header else kept. A refusal comes before the first byte: 1 to 8 of the block, 4 with place 0 where the result passes a
// limit, 12 where fewer bytes are lent than the result has.
pub fn convert(block: &[u8], out: &mut [u8]) -> Result<usize, Refused>
    ensures result_value { wrote_values result ≡ wrote_owed (roomed (converting block.now) (length out.old)) }
    ensures out_after { out.new ≡ out_owed (roomed (converting block.now) (length out.old)) out.old }
{
    let scanned = scan(block)?;
    let size = in_room(scanned.size, out.len())?;
    put_header(out, scanned.declared);
    write_at(
        block,
        Spot { at: 14, to: 14 },
        Marks { word: 0, count: 0 },
        out,
    );
    Ok(size)
}
