// The pairs of states that were found, one row each: the two blocks' active pauses, and their phase, which is the same for both.
ghost use Rattle.std.specs.Prelude.{◌≡◌, ◌≤◌, ◌<◌, length};

use records::state::Phase;

// The states of both blocks: their phase, and the active pauses of each.
#[derive(Clone, Copy, PartialEq, Eq)]
pub struct Pair {
    pub phase: Phase,
    pub first: [u64; 2],
    pub second: [u64; 2],
}

// The first pair: both blocks are fresh.
pub const FRESH: Pair = Pair {
    phase: Phase::Fresh,
    first: [0, 0],
    second: [0, 0],
};

// The rows of the pairs that were found, in the order in which they were.
#[derive(Drop)]
pub struct Rows {
    pub pairs: [Pair; 1024],
    pub count: usize,
    ghost all: { length pairs ≡ 1024 },
    ghost few: { count ≤ 1024 },
}

impl Rows {
    ghost use Rattle.pairs.specs.Rows.{row_at, both_fresh, Finds, Pushed};

    // The first pair alone.
    pub fn fresh() -> Rows
        ensures { (result.count ≡ 1) × (row_at result 0 ≡ both_fresh) }
    {
        Rows {
            pairs: [FRESH; 1024],
            count: 1,
        }
    }

    // The row of a pair.
    pub fn find(&self, p: Pair) -> Option<usize>
        ensures { Finds self.now p result }
    {
        self.pairs[..self.count].iter().position(|q| *q == p)
    }

    // A pair gets the next row.
    pub fn push(&mut self, p: Pair)
        requires { self.old.count < 1024 }
        ensures { Pushed self.old p self.new }
    {
        self.pairs[self.count] = p;
        self.count += 1;
    }
}
