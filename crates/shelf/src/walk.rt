// The reading of a shelf: entries of good blocks from the front, then zeros.
ghost use Rattle.std.specs.Prelude.{◌≡◌, cond, ◌&&◌, List, ◌+◌, ◌-◌, ◌≤◌, ◌<◌, length, take, drop};
ghost use Rattle.block.specs.Format.{reading};
ghost use Rattle.tables.specs.declared.Table.{Table};
ghost use Rattle.block.specs.Told.{ReadWhole};
ghost use Rattle.records.specs.Numerals.{field};
ghost use Rattle.shelf.specs.Entries.{Entry, is_good, fits, zeros, entry_there, first_entry};
ghost use Rattle.shelf.specs.Places.{LaidOut, Walks};

use crate::places::{entry_of, held_of};
use block::whole::{Summary, read_block};
use records::numerals::number_at;
use refusals::Refused;
use tables::Table;

// Nothing but zeros from a place on.
fn zeros_from(shelf: &[u8], at: usize) -> bool
    requires { at ≤ length shelf.now }
    ensures { result ≡ zeros (drop at shelf.now) }
{
    shelf[at..].iter().all(|&byte| byte == 0)
}

// The check of a block, without its table.
pub(crate) fn checked(block: &[u8]) -> Result<Summary, Refused>
    ensures { (table : Table) × ReadWhole (reading block.now) table result }
{
    let mut table = Table::empty();
    read_block(block, &mut table)
}

// The block is good.
fn good_block(block: &[u8]) -> bool
    ensures { result ≡ is_good (reading block.now) }
{
    checked(block).is_ok()
}

// An entry of that size may stand at a place, after those before it.
fn fits_after(shelf: &[u8], at: usize, party: u64, name: u64, size: usize) -> bool
    requires laid_out { (es : List Entry) × LaidOut shelf.now at es }
    requires le_size { (8 ≤ size) × (at + size ≤ length shelf.now) × (name < 65536) }
    ensures { (es : List Entry) → LaidOut shelf.now at es
        → result ≡ fits es (record { party = party; name = name; block = take (size - 8) (drop (at + 8) shelf.now) }) }
{
    if 1 < party {
        return false;
    }
    if entry_of(shelf, at, party, name).is_some() {
        return false;
    }
    if 32768 < held_of(shelf, at, party) + size {
        return false;
    }
    good_block(&shelf[at + 8..at + size])
}

// The end of the entry at a place, if one is there that may stand after those before it.
fn entry_end(shelf: &[u8], at: usize) -> Option<usize>
    requires { (es : List Entry) × LaidOut shelf.now at es }
    ensures { (es : List Entry) → LaidOut shelf.now at es
        → result ≡ cond (entry_there (drop at shelf.now) && fits es (first_entry (drop at shelf.now))) (Some (at + field shelf.now at 2)) None }
{
    let left = shelf.len() - at;
    if left < 8 {
        return None;
    }
    let size = number_at(shelf, at, 2) as usize;
    if size < 8 || left < size {
        return None;
    }
    if number_at(shelf, at + 2, 2) != 5 {
        return None;
    }
    let party = number_at(shelf, at + 4, 2);
    let name = number_at(shelf, at + 6, 2);
    fits_after(shelf, at, party, name, size).then_some(at + size)
}

// The reading of a shelf: where its entries end, from where on there are zeros; or that it is none.
pub(crate) fn walk_shelf(shelf: &[u8]) -> Option<usize>
    ensures { Walks shelf.now result }
{
    if shelf.len() != 65536 {
        return None;
    }
    let mut at: usize = 0;
    while !zeros_from(shelf, at) {
        at = entry_end(shelf, at)?;
    }
    Some(at)
}
