// Where an exit goes in the conversion: one deeper for each abort that it leaves.
ghost use Rattle.std.specs.Prelude.{◌≡◌, ◌+◌, ◌≤◌, ◌<◌};
ghost use Rattle.rules.specs.Statements.{depth};
ghost use Rattle.converting.specs.Records.{out_by};
ghost use Rattle.convert.specs.Marks.{marks_of};

use tables::kinds::Depth;

// The traps (1) and aborts (0) around the exit, the innermost at bit 0, and how many they are.
pub fn sent(marks: u64, count: u16, d: Depth) -> Depth
    requires { (count ≤ 64) × (d.0 < 1024) }
    ensures { (depth result.0 ≡ out_by (marks_of marks count) (depth d.0)) × (result.0 ≤ d.0 + count) }
{
    let own = d.0;
    if count == 0 {
        return Depth(own);
    }
    if marks % 2 != 1 {
        let further = sent(marks / 2, count - 1, Depth(own));
        return Depth(further.0 + 1);
    }
    if own == 0 {
        return Depth(0);
    }
    let outer = sent(marks / 2, count - 1, Depth(own - 1));
    Depth(outer.0 + 1)
}
