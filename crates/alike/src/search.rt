// The search through the pairs in the order in which they are found, level by level.
ghost use Rattle.std.specs.Prelude.{◌≡◌, ◌+◌, ◌^◌, ◌≤◌, ◌<◌};
ghost use Rattle.rules.specs.Statements.{Stmt};
ghost use Rattle.forms.specs.Forms.{At, Placed};
ghost use Rattle.pairs.specs.Blocks.{comparison};
ghost use Rattle.alike.specs.Ends.{Kept, Turns, Ends};

use pairs::rows::{Pair, Rows};
use pairs::steps::one_instant;
use refusals::Why;
use tables::Table;

// A step: from which pair, and by which set.
#[derive(Clone, Copy)]
pub(crate) struct Link {
    pub parent: u16,
    pub set: u8,
}

// Where the search is: the pair and the set of the next step, where the level ends, and whether a pair was left out.
#[derive(Clone, Copy)]
pub(crate) struct Search {
    pub at: usize,
    pub set: u8,
    pub stop: usize,
    pub more: bool,
}

// How many input sets there are.
fn sets_of(inputs: u16) -> u8
    requires { inputs ≤ 6 }
    ensures { result ≡ 2 ^ inputs }
{
    1u8 << inputs
}

// The pair that a step leads to: it is found, or left out where there is no room, or gets a row with the step that found it.
fn keep(rows: &mut Rows, links: &mut [Link; 1024], s: Search, p: Pair) -> Search
    requires { s.at < 1024 }
    ensures { Kept rows.old rows.new links.old links.new s p result }
{
    if rows.find(p).is_some() {
        return s;
    }
    let count = rows.count;
    if 1024 <= count {
        return Search { more: true, ..s };
    }
    rows.push(p);
    let parent = s.at as u16;
    links[count] = Link { parent, set: s.set };
    s
}

// The step after this one: the next set, the next pair or the next level; none where all pairs were followed. Too many pairs are told only at
// the end of a level.
fn onward(s: Search, count: usize, width: u8) -> Result<Option<Search>, Why>
    requires { (s.at < 1024) × (s.set < width) }
    ensures { Turns s count width result }
{
    if s.set + 1 < width {
        return Ok(Some(Search {
            set: s.set + 1,
            ..s
        }));
    }
    let next = Search {
        at: s.at + 1,
        set: 0,
        ..s
    };
    if s.at + 1 < s.stop {
        return Ok(Some(next));
    }
    if s.more {
        return Err(Why::Pairs);
    }
    if s.stop < count {
        return Ok(Some(Search {
            stop: count,
            ..next
        }));
    }
    Ok(None)
}

// The whole search, from both blocks fresh: the first step that shows a difference, or none.
pub(crate) fn search_all(
    table: &Table,
    other: &Table,
    inputs: u16,
    outputs: u16,
    links: &mut [Link; 1024],
) -> Result<Option<Link>, Why>
    requires { (inputs ≤ 6) × (inputs + outputs ≤ 64) × Placed table.now 0 × Placed other.now 0 }
    ensures { (t u : Stmt) → At table.now 0 t
        → At other.now 0 u
        → Ends (comparison (record { inputs = inputs; outputs = outputs; body = t }) (record { inputs = inputs; outputs = outputs; body = u }))
        links.new result }
{
    let width = sets_of(inputs);
    let mut rows = Rows::fresh();
    let mut s = Search {
        at: 0,
        set: 0,
        stop: 1,
        more: false,
    };
    loop {
        let p = rows.pairs[s.at];
        let Some(next) = one_instant(table, other, inputs, outputs, p, s.set) else {
            return Ok(Some(Link {
                parent: s.at as u16,
                set: s.set,
            }));
        };
        let kept = keep(&mut rows, links, s, next);
        let Some(more) = onward(kept, rows.count, width)? else {
            return Ok(None);
        };
        s = more;
    }
}
