// One shelf of 65,536 lent bytes on which two parties keep blocks: install, fetch and withdraw. What one party is told depends on its own calls
// alone; no offset in the shelf is ever told.
#![tactic(auto)]

mod places;
mod walk;
mod write;

ghost use Rattle.std.specs.Prelude.{◌≡◌, ◌≤◌, length, Some, IfOk};
ghost use Rattle.block.specs.Format.{Good, good, reading};
ghost use Rattle.shelf.specs.Calls.{install, fetch, withdraw, told, left};
ghost use Rattle.shelf.specs.Places.{Walks};
ghost use Rattle.records.specs.Parts.{LiesAt};
ghost use Rattle.shelf.specs.Answered.{shelved_values, shelved_owed, Entered, Finds, fetched_as, lies_from};

use crate::places::{entry_of, held_of};
use crate::walk::{checked, walk_shelf};
use crate::write::{close_gap, put_entry};
use records::numerals::number_at;
use records::parts::cut;
use refusals::{Refused, Why};

// Where the entries end on a shelf that a party calls on: 18, then 19.
fn entries_end(shelf: &[u8], party: u16) -> Result<usize, Refused>
    ensures { Entered shelf.now party result }
{
    if 1 < party {
        return Err(Why::Party.at(0));
    }
    walk_shelf(shelf).ok_or(Why::Shelf.at(0))
}

// An install of a good block on a shelf whose entries end there: TAKEN, then QUOTA; else it goes in after the last entry.
fn admitted(
    shelf: &mut [u8],
    end: usize,
    party: u16,
    name: u16,
    block: &[u8],
) -> Result<(), Refused>
    requires walks { Walks shelf.old (Some end) }
    requires party_bound { (party ≤ 1) × ((g : Good) × (reading block.now ≡ good g)) }
    ensures result_value { shelved_values result ≡ shelved_owed (told shelf.old (install party name block.now)) }
    ensures shelf_after { shelf.new ≡ left shelf.old (install party name block.now) }
{
    let same = entry_of(shelf, end, party as u64, name as u64);
    let held = held_of(shelf, end, party as u64);
    let needed = held + 8 + block.len();
    if same.is_some() {
        return Err(Why::Taken.at(0));
    }
    if 32768 < needed {
        return Err(Why::Quota.at(0));
    }
    put_entry(&mut shelf[end..], party, name, block);
    Ok(())
}

// Installs a block under a party's name: 18, 19, then 1 to 8 with their places in the block, 20, 21. A refusal changes no byte.
pub fn install(shelf: &mut [u8], party: u16, name: u16, block: &[u8]) -> Result<(), Refused>
    ensures result_value { shelved_values result ≡ shelved_owed (told shelf.old (install party name block.now)) }
    ensures shelf_after { shelf.new ≡ left shelf.old (install party name block.now) }
{
    let end = entries_end(shelf, party)?;
    checked(block)?;
    admitted(shelf, end, party, name, block)
}

// A party's entry on a shelf: where it begins and how many bytes it takes; and where all entries end.
#[derive(Clone, Copy)]
struct Own {
    at: usize,
    size: usize,
    end: usize,
}

// The party's entry of that name: 18, 19, then 22.
fn own_entry(shelf: &[u8], party: u16, name: u16) -> Result<Own, Refused>
    ensures { Finds shelf.now party name result }
{
    let end = entries_end(shelf, party)?;
    let at = entry_of(shelf, end, party as u64, name as u64).ok_or(Why::Absent.at(0))?;
    let size = number_at(shelf, at, 2) as usize;
    Ok(Own { at, size, end })
}

// Withdraws the block of a party's name: 18, 19, then 22. The entries behind it close the gap, with zeros behind them; a refusal
// changes no byte.
pub fn withdraw(shelf: &mut [u8], party: u16, name: u16) -> Result<(), Refused>
    ensures result_value { shelved_values result ≡ shelved_owed (told shelf.old (withdraw party name)) }
    ensures shelf_after { shelf.new ≡ left shelf.old (withdraw party name) }
{
    let gone = own_entry(shelf, party, name)?;
    close_gap(shelf, gone.at, gone.size, gone.end);
    Ok(())
}

// Hands back the block of a party's name, the part of the shelf itself: 18, 19, then 22.
pub fn fetch<'a>(shelf: &'a [u8], party: u16, name: u16) -> Result<&'a [u8], Refused>
    ensures result_value { fetched_as result ≡ told shelf.now (fetch party name) }
    ensures lies_at { IfOk result (λ part. LiesAt part shelf.entry (lies_from shelf.now party name) (length part.now)) }
{
    let own = own_entry(shelf, party, name)?;
    Ok(cut(shelf, own.at + 8, own.at + own.size))
}
