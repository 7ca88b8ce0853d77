// An answer's values in the bytes that are lent for it.
ghost use Rattle.std.specs.Prelude.{◌≡◌, ◌*◌, ◌≤◌, ◌<◌, length, get_or};
ghost use Rattle.std.proofs.lemmas.List.Edits.{sets};
ghost use Rattle.exports.specs.Layout.{laid, Answers};

use records::numerals::put_number;

// The values from the front on, 8 bytes each.
pub(crate) fn put_values(answer: &mut [u8], values: &[u64])
    requires { 8 * length values.now ≤ length answer.old }
    ensures { answer.new ≡ sets answer.old 0 (laid values.now) }
{
    for (i, value) in values.iter().enumerate() {
        put_number(answer, 8 * i, 8, *value);
    }
}

// An answer's values in all the bytes that are lent for it; its number, the first value, is given back.
pub(crate) fn put_answer(answer: &mut [u8], values: &[u64]) -> u16
    requires lent { length answer.old ≡ 8 * length values.now }
    requires number { (0 < length values.now) × (get_or values.now 0 0 < 65536) }
    ensures { Answers (length values.now) values.now answer.old answer.new result }
{
    put_values(answer, values);
    values[0] as u16
}
