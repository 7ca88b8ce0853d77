// The state record, read and written.
ghost use Rattle.std.specs.Prelude.{◌≡◌, ◌&&◌, List, ℕ, eqb, length, get_or};
ghost use Rattle.records.specs.StateRecord.{state_size, version_in, statements_in, names_block, in_phase, read_state};
ghost use Rattle.records.specs.Held.{phase_number, words_in, held_of, state_bytes};

use crate::bits::bit_beyond;
use crate::fields::{field_at, put_fields};

// The record's fields: length, kind, the block's version and statement count, phase, the two words.
const WIDTHS: [usize; 7] = [2, 2, 2, 2, 2, 8, 8];

const SIZE: usize = 26;

const KIND: u64 = 2;

// A state's phase; the active set stands beside it.
#[derive(Clone, Copy, Debug, PartialEq, Eq)]
pub enum Phase {
    Fresh,
    Running,
    Finished,
}

impl From<Phase> for u16 {
    ghost from_gives = { λ phase n. n ≡ phase_number phase };

    fn from(phase: Phase) -> u16 {
        match phase {
            Phase::Fresh => 0,
            Phase::Running => 1,
            Phase::Finished => 2,
        }
    }
}

// A state: its phase and its active pauses.
#[derive(Clone, Copy)]
pub struct Held {
    pub phase: Phase,
    pub active: [u64; 2],
}

// No pause is active.
fn no_bit(active: [u64; 2]) -> bool
    ensures { result ≡ (eqb (get_or active 0 0) 0 && eqb (get_or active 1 0) 0) }
{
    active[0] == 0 && active[1] == 0
}

// What the phase's number asks of the bits: fresh and finished have none, running has one and none beyond the pauses.
fn by_phase(phase: u64, pauses: u16, active: [u64; 2]) -> Option<Held>
    ensures { (bs : List ℕ) → active ≡ words_in bs → result ≡ held_of (in_phase phase pauses bs) }
{
    let none = no_bit(active);
    let phase = match phase {
        0 if none => Phase::Fresh,
        1 if !none && !bit_beyond(pauses, active) => Phase::Running,
        2 if none => Phase::Finished,
        _ => return None,
    };
    Some(Held { phase, active })
}

// The state that a record holds for a block of so many pauses; none: STATE.
pub fn read_state(state: &[u8], pauses: u16) -> Option<Held>
    ensures { result ≡ held_of (read_state pauses state.now) }
{
    if state.len() != SIZE {
        return None;
    }
    if field_at(state, &WIDTHS, 0) != SIZE as u64 {
        return None;
    }
    if field_at(state, &WIDTHS, 1) != KIND {
        return None;
    }
    let phase = field_at(state, &WIDTHS, 4);
    let active = [field_at(state, &WIDTHS, 5), field_at(state, &WIDTHS, 6)];
    by_phase(phase, pauses, active)
}

// Not OTHER BLOCK: the record names a block of this version and so many statements.
pub fn names_block(state: &[u8], version: u16, statements: usize) -> bool
    ensures { result ≡ names_block version statements state.now }
{
    state.len() == SIZE
        && field_at(state, &WIDTHS, 2) == version as u64
        && field_at(state, &WIDTHS, 3) == statements as u64
}

// A state's record over the lent bytes.
fn put_state(state: &mut [u8], version: u64, statements: u64, phase: u16, active: [u64; 2])
    requires { length state.old ≡ state_size }
    ensures { state.new ≡ state_bytes version statements phase active }
{
    let values = [
        SIZE as u64,
        KIND,
        version,
        statements,
        phase as u64,
        active[0],
        active[1],
    ];
    put_fields(state, 0, &WIDTHS, &values);
}

// The record of a state of the block with this version and so many statements, its phase by number.
pub fn write_state(state: &mut [u8], version: u16, statements: usize, phase: u16, active: [u64; 2])
    requires { length state.old ≡ state_size }
    ensures { state.new ≡ state_bytes version statements phase active }
{
    put_state(state, version as u64, statements as u64, phase, active);
}

// The next state's record over that of the state before it: it names the same block.
pub fn write_next(state: &mut [u8], phase: u16, active: [u64; 2])
    requires { length state.old ≡ state_size }
    ensures { state.new ≡ state_bytes (version_in state.old) (statements_in state.old) phase active }
{
    let version = field_at(state, &WIDTHS, 2);
    let statements = field_at(state, &WIDTHS, 3);
    put_state(state, version, statements, phase, active);
}
