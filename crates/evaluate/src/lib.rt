// One instant of a block over its table: the rounds, the next state ("Rounds", "Next state").
#![tactic(auto)]

pub mod next;
pub mod rounds;
