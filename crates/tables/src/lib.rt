// A block's table, which the reader fills and the evaluator walks: the kinds of its rows, and the codes of each statement with the check of the loops.
#![tactic(auto)]

pub mod codes;
pub mod kinds;
pub mod loops;

ghost use Rattle.std.specs.Prelude.{◌≡◌, length, replicate};

// A statement is a row of the table, by its number: kind, operand and the count of the statements from it down.
#[derive(Clone, Copy)]
pub struct Table {
    pub kinds: [u16; 512],
    pub operands: [u16; 512],
    pub sizes: [u16; 512],
}

impl Table {
    // No row filled yet.
    pub fn empty() -> Table
        ensures rows { (length result.kinds ≡ 512) × (length result.operands ≡ 512) × (length result.sizes ≡ 512) }
        ensures zeros { (result.kinds ≡ replicate 512 0) × (result.operands ≡ replicate 512 0) × (result.sizes ≡ replicate 512 0) }
    {
        Table {
            kinds: [0; 512],
            operands: [0; 512],
            sizes: [0; 512],
        }
    }
}
