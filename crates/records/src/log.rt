// The log record, written from the log's present end on.
ghost use Rattle.std.specs.Prelude.{◌≡◌, List, ◌++◌, ℕ, ◌+◌, ◌≤◌, length, drop};
ghost use Rattle.records.specs.LogRecord.{log_size, log_record, logged_at, no_room};

use crate::fields::put_fields;
use tables::kinds::Code;

// The record's fields: length, kind, inputs present, inputs absent, outputs present, code, rounds.
const WIDTHS: [usize; 7] = [2, 2, 8, 8, 8, 2, 2];

const SIZE: usize = 32;

const KIND: u64 = 3;

// ROOM: the end is beyond the log, or fewer bytes are after it than the record has. No sum, so no end is too large.
pub fn no_room(len: usize, end: usize) -> bool
    ensures { (log : List ℕ) → length log ≡ len → result ≡ no_room log end }
{
    len < end || len - end < SIZE
}

// A record at the front of the lent part; what lies behind it stays. Here the code becomes a number.
pub(crate) fn write_record(
    part: &mut [u8],
    present: u64,
    absent: u64,
    outputs: u64,
    code: Code,
    rounds: u16,
)
    requires { log_size ≤ length part.old }
    ensures { part.new ≡ log_record (record { inputs_present = present; inputs_absent = absent; outputs_present = outputs; code = code.0; rounds = rounds })
        ++ drop log_size part.old }
{
    let number = code.0 as u64;
    let values = [
        SIZE as u64,
        KIND,
        present,
        absent,
        outputs,
        number,
        rounds as u64,
    ];
    put_fields(part, 0, &WIDTHS, &values);
}

// A record from the log's end on: that part is lent on, and the new end given back.
pub fn write_at_end(
    log: &mut [u8],
    end: usize,
    present: u64,
    absent: u64,
    outputs: u64,
    code: Code,
    rounds: u16,
) -> usize
    requires { end + log_size ≤ length log.old }
    ensures { (result ≡ end + log_size)
        × (log.new ≡ logged_at log.old end (record { inputs_present = present; inputs_absent = absent; outputs_present = outputs; code = code.0; rounds = rounds })) }
{
    write_record(&mut log[end..], present, absent, outputs, code, rounds);
    end + SIZE
}
