// An entry written into the bytes of a shelf.
ghost use Rattle.std.specs.Prelude.{◌≡◌, ◌+◌, ◌≤◌, length};
ghost use Rattle.std.proofs.lemmas.List.Edits.{sets};
ghost use Rattle.shelf.specs.Entries.{entry_bytes};
ghost use Rattle.shelf.specs.Calls.{entry};
ghost use Rattle.shelf.specs.Places.{closed};

use records::numerals::put_number;
use records::parts::copy_at;

// An entry at the front of the lent part; what lies behind it stays.
pub(crate) fn put_entry(part: &mut [u8], party: u16, name: u16, block: &[u8])
    requires { 8 + length block.now ≤ length part.old }
    ensures { part.new ≡ sets part.old 0 (entry_bytes (entry party name block.now)) }
{
    put_number(part, 0, 2, (8 + block.len()) as u64);
    put_number(part, 2, 2, 5);
    put_number(part, 4, 2, party as u64);
    put_number(part, 6, 2, name as u64);
    copy_at(part, 8, block);
}

// A gap closed: what lay behind it, up to the end, lies where it began, and zeros behind that.
pub(crate) fn close_gap(shelf: &mut [u8], at: usize, gap: usize, end: usize)
    requires { (at + gap ≤ end) × (end ≤ length shelf.old) }
    ensures { shelf.new ≡ closed shelf.old at gap end }
{
    shelf.copy_within(at + gap..end, at);
    shelf[end - gap..end].fill(0);
}
