// Bits of a word and of the two words of an active set.
ghost use Rattle.std.specs.Prelude.{◌≡◌, not, ◌/◌, ◌<◌, ◌^◌, eqb};
ghost use Rattle.sets.specs.Words.{set_of};
ghost use Rattle.records.specs.StateRecord.{beyond, undeclared_input, bad_inputs};

// A bit is set from a place on; from 64 on there is none, and no shift by the width.
pub(crate) fn bit_from(word: u64, from: u16) -> bool
    ensures { result ≡ not (eqb (word / 2 ^ from) 0) }
{
    from < 64 && (word >> from) != 0
}

// INPUT: a bit set at or above the number of inputs.
pub fn input_over(inputs: u16, given: u64) -> bool
    ensures { result ≡ undeclared_input inputs given }
{
    bit_from(given, inputs)
}

// INPUT, of two sets: a bad bit in either, or a signal in both.
pub fn inputs_wrong(inputs: u16, present: u64, absent: u64) -> bool
    ensures { result ≡ bad_inputs inputs present absent }
{
    input_over(inputs, present) || input_over(inputs, absent) || (present & absent) != 0
}

// A bit of the 128 is set at or above the pause count.
pub(crate) fn bit_beyond(pauses: u16, active: [u64; 2]) -> bool
    ensures { result ≡ beyond pauses (set_of active) }
{
    if pauses < 64 {
        bit_from(active[0], pauses) || active[1] != 0
    } else {
        bit_from(active[1], pauses - 64)
    }
}

// The pause is active.
pub(crate) fn has(active: [u64; 2], n: u16) -> bool
    requires { n < 128 }
    ensures { result ≡ set_of active n }
{
    if n < 64 {
        (active[0] >> n) % 2 == 1
    } else {
        (active[1] >> (n - 64)) % 2 == 1
    }
}
