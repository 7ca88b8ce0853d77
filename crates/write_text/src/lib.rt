// The text of a block, written into lent bytes.
#![tactic(auto)]

mod bytes;
mod header;
mod names;
mod statements;

ghost use Rattle.std.specs.Prelude.{◌≡◌, length};
ghost use Rattle.rules.specs.Statements.{Stmt};
ghost use Rattle.block.specs.Format.{Header};
ghost use Rattle.text.specs.Shown.{shown, text_bytes};
ghost use Rattle.writing.specs.Answers.{writes, roomed, wrote_values, wrote_owed, out_owed};
ghost use Rattle.write_text.specs.WriteText.{text_writing, Shows, Filled, Answers};

use crate::bytes::{put_name, put_word};
use crate::header::put_names;
use crate::names::digits;
use crate::statements::{Level, Spot, put_statement};
use block::whole::{Summary, read_block};
use refusals::Refused;
use tables::Table;
use writing::in_room;

// The whole text of a table's block, as far as the lent bytes reach, and its size.
fn put_text(table: &Table, s: Summary, out: &mut [u8]) -> usize
    requires { (h : Header) × ((t : Stmt) × Shows table.now s h t) }
    ensures { (h : Header) (t : Stmt) → Shows table.now s h t
        → Filled (text_bytes (shown h t)) out.old out.new result }
{
    let inputs = s.inputs;
    let outputs = s.outputs;
    let worded = put_word(out, 0, b"version ");
    let numbered = put_name(out, worded, digits(s.version));
    let closed = put_word(out, numbered, b";");
    let first = put_names(out, closed, b"\ninput ", 0, inputs, inputs, outputs);
    let second = put_names(out, first, b"\noutput ", inputs, outputs, inputs, outputs);
    let spot = Spot {
        to: second,
        level: Level::Whole,
        indent: 0,
        traps: 0,
        inputs,
        outputs,
    };
    let done = put_statement(table, 0, spot, out);
    put_word(out, done, b"\n")
}

// The text is measured, with no byte lent, before the first one is written.
fn put_shown(table: &Table, s: Summary, out: &mut [u8]) -> Result<usize, Refused>
    requires { (h : Header) × ((t : Stmt) × Shows table.now s h t) }
    ensures { (h : Header) (t : Stmt) → Shows table.now s h t
        → Answers (writes (text_bytes (shown h t))) out.old out.new result }
{
    let mut none = [0u8; 0];
    let size = put_text(table, s, &mut none);
    let bytes = in_room(size, out.len())?;
    put_text(table, s, out);
    Ok(bytes)
}

// Writes the text of a block: 1 to 8 on the block; then 12 where the lent bytes are fewer than the text has.
pub fn write_text(block: &[u8], text: &mut [u8]) -> Result<usize, Refused>
    ensures result_value { wrote_values result ≡ wrote_owed (roomed (text_writing block.now) (length text.old)) }
    ensures text_after { text.new ≡ out_owed (roomed (text_writing block.now) (length text.old)) text.old }
{
    let mut table = Table::empty();
    let s = read_block(block, &mut table)?;
    put_shown(&table, s, text)
}
