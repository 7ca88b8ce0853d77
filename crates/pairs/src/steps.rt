// One instant of both blocks from a pair of states.
ghost use Rattle.std.specs.Prelude.{◌≡◌, ℕ, ◌+◌, ◌≤◌};
ghost use Rattle.sets.specs.Numbers.{Numbers};
ghost use Rattle.rules.specs.Statements.{Block, Stmt};
ghost use Rattle.rules.specs.States.{next};
ghost use Rattle.rules.specs.Rounds.{Answer};
ghost use Rattle.forms.specs.Forms.{At, Placed};
ghost use Rattle.evaluate.specs.Reacts.{state_of, IsAnswer};
ghost use Rattle.pairs.specs.Rows.{Words, Told, Stepped};

use crate::rows::Pair;
use evaluate::rounds::{Done, Reacted, all_heard, react};
use records::state::Phase;
use tables::Table;

// The next states of both after one code: only code 1 leaves something to do.
#[tactic(auto, unfolding(rules::specs::States::next))]
fn next_states(a: Done, c: Done) -> Pair
    ensures phase { (A : Numbers) → next a.code.0 A ≡ state_of result.phase A }
    ensures first { (result.first ≡ a.kept) × Words result.first }
    ensures second { (result.second ≡ c.kept) × Words result.second }
{
    let first = a.kept;
    let second = c.kept;
    Pair {
        phase: if a.code.0 == 1 {
            Phase::Running
        } else {
            Phase::Finished
        },
        first,
        second,
    }
}

// The pair after two instants that are told alike: both are answered with the same outputs and code, and there are the next states, or both are
// 13, and the states stay.
fn next_pair(p: Pair, r: Reacted, q: Reacted) -> Option<Pair>
    ensures { (b d : Block) (a c : Answer) → IsAnswer b a r → IsAnswer d c q → Told b d p a c result }
{
    match (r.done, q.done) {
        (Some(a), Some(c)) if r.marks.present == q.marks.present && a.code.0 == c.code.0 => Some(
            next_states(a, c),
        ),
        (None, None) => Some(p),
        _ => None,
    }
}

// One instant of both: the pair that they go on from, or none where they are told apart.
pub fn one_instant(
    table: &Table,
    other: &Table,
    inputs: u16,
    outputs: u16,
    p: Pair,
    set: u8,
) -> Option<Pair>
    requires { (inputs + outputs ≤ 64) × Placed table.now 0 × Placed other.now 0 }
    ensures { (t u : Stmt) → At table.now 0 t
        → At other.now 0 u
        → Stepped (record { inputs = inputs; outputs = outputs; body = t }) (record { inputs = inputs; outputs = outputs; body = u }) p set result }
{
    let heard = all_heard(inputs, set as u64);
    let r = react(table, p.phase, p.first, inputs, outputs, heard);
    let q = react(other, p.phase, p.second, inputs, outputs, heard);
    next_pair(p, r, q)
}
