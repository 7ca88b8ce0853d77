// The end of a text: the header before the records that were read, the block checked as any other, and its bytes in the lent ones.
ghost use Rattle.std.specs.Prelude.{◌≡◌, List, ℕ, ◌≤◌, length};
ghost use Rattle.block.specs.Format.{reading};
ghost use Rattle.writing.specs.Answers.{writes};
ghost use Rattle.text.specs.Reader.{checked, block_of};
ghost use Rattle.read_steps.specs.Records.{Written};
ghost use Rattle.read_text.specs.Ending.{Answers, blocked};

use block::Declared;
use block::whole::read_block;
use records::parts::copy_at;
use refusals::{Refused, Why};
use tables::Table;
use tables::kinds::wide;
use writing::{in_room, put_header};

// The bytes of a good block copied to the front of the lent ones: 12 where these are fewer.
fn copied(part: &[u8], block: &mut [u8]) -> Result<usize, Refused>
    ensures { Answers (writes part.now) block.old block.new result }
{
    let size = in_room(part.len(), block.len())?;
    copy_at(block, 0, part);
    Ok(size)
}

// The bytes of a block: 1 to 8 on them, then 12.
fn checked_copy(part: &[u8], block: &mut [u8]) -> Result<usize, Refused>
    ensures { Answers (checked part.now (reading part.now)) block.old block.new result }
{
    let mut table = Table::empty();
    read_block(part, &mut table)?;
    copied(part, block)
}

// The block of a text that is in the grammar, by what was counted in its header and body and the records read: 4 where it has over 64
// signals, before they are cut to two bytes each, or over 3,072 bytes of records; then 1 to 8 on the block; then 12.
pub fn finish_block(
    out: &mut [u8],
    block: &mut [u8],
    version: u64,
    inputs: usize,
    signals: usize,
    next: usize,
    size: u16,
) -> Result<usize, Refused>
    requires out_len { length out.old ≡ 3092 }
    requires inputs_le_signals { inputs ≤ signals }
    requires signals_le_next { signals ≤ next }
    ensures { (b : List ℕ) → Written out.old size b → Answers (block_of (blocked version inputs signals next b)) block.old block.new result }
{
    if 64 < next {
        return Err(Why::Limit.at(0));
    }
    if 3072 < size {
        return Err(Why::Limit.at(0));
    }
    put_header(
        out,
        Declared {
            version: (version % 65536) as u16,
            inputs: inputs as u16,
            outputs: (signals - inputs) as u16,
            locals: (next - signals) as u16,
        },
    );
    let end = 14 + wide(size);
    checked_copy(&out[..end], block)
}
