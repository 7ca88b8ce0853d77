// Two blocks side by side: the pairs of states that runs from fresh reach, as rows of a table, and one instant of both.
#![tactic(auto)]

pub mod rows;
pub mod steps;
