// Blocks read from kernel text: the header and the statement, one token a step, then the end.
#![tactic(auto)]

mod ending;
mod heading;
mod reading;

ghost use Rattle.std.specs.Prelude.{◌≡◌, length};
ghost use Rattle.text.specs.Reader.{text_read};
ghost use Rattle.writing.specs.Answers.{roomed, wrote_values, wrote_owed, out_owed};

use crate::ending::finish_block;
use crate::reading::read_tokens;
use refusals::Refused;

// Reads a text into the block that it stands for: 15 where the text is outside the grammar or a name is at fault, at its place; 4 where it
// stands for a block over its limits; then 1 to 8 on the block; then 12 where the lent bytes are fewer than the block has.
pub fn read_text(text: &[u8], block: &mut [u8]) -> Result<usize, Refused>
    ensures result_value { wrote_values result ≡ wrote_owed (roomed (text_read text.now) (length block.old)) }
    ensures block_after { block.new ≡ out_owed (roomed (text_read text.now) (length block.old)) block.old }
{
    let mut out = [0u8; 3092];
    let r = read_tokens(text, &mut out)?;
    let s = r.stage;
    finish_block(
        &mut out, block, r.version, r.inputs, r.signals, s.next, s.size,
    )
}
