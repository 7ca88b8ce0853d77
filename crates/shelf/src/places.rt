// Where entries lie on a shelf, and what a party holds of it.
ghost use Rattle.std.specs.Prelude.{◌≡◌, cond, ◌&&◌, List, ◌+◌, ◌≤◌, eqb, length};
ghost use Rattle.records.specs.Numerals.{field};
ghost use Rattle.shelf.specs.Entries.{Entry, in_use, own};
ghost use Rattle.shelf.specs.Places.{LaidOut, StandsAt};

use records::numerals::number_at;

// The entry at a place is that party's, of that name.
fn is_named(shelf: &[u8], at: usize, party: u64, name: u64) -> bool
    requires { at + 8 ≤ length shelf.now }
    ensures { result ≡ (eqb (field shelf.now (at + 4) 2) party && eqb (field shelf.now (at + 6) 2) name) }
{
    number_at(shelf, at + 4, 2) == party && number_at(shelf, at + 6, 2) == name
}

// Where the party's entry of that name begins, of those before the end. An entry says where the next one begins: no iterator of the library steps so.
pub(crate) fn entry_of(shelf: &[u8], end: usize, party: u64, name: u64) -> Option<usize>
    requires { (es : List Entry) × LaidOut shelf.now end es }
    ensures { (es : List Entry) → LaidOut shelf.now end es → StandsAt party name es result }
{
    let mut at: usize = 0;
    while at < end {
        if is_named(shelf, at, party, name) {
            return Some(at);
        }
        at += number_at(shelf, at, 2) as usize;
    }
    None
}

// How many bytes of the entry at a place are the party's: all or none.
fn counted(shelf: &[u8], at: usize, party: u64) -> usize
    requires { at + 8 ≤ length shelf.now }
    ensures { result ≡ cond (eqb (field shelf.now (at + 4) 2) party) (field shelf.now at 2) 0 }
{
    if number_at(shelf, at + 4, 2) == party {
        number_at(shelf, at, 2) as usize
    } else {
        0
    }
}

// How many bytes the party's entries before the end take.
pub(crate) fn held_of(shelf: &[u8], end: usize, party: u64) -> usize
    requires { (es : List Entry) × LaidOut shelf.now end es }
    ensures { (es : List Entry) → LaidOut shelf.now end es → result ≡ in_use (own party es) }
{
    let mut held: usize = 0;
    let mut at: usize = 0;
    while at < end {
        held += counted(shelf, at, party);
        at += number_at(shelf, at, 2) as usize;
    }
    held
}
