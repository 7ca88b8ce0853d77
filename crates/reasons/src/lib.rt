// Why an instant was refused, why an output is present, why an emit was not executed: the statement that is named, over the table.
#![tactic(auto)]

pub mod asked;
pub mod lowest;
pub mod taken;
pub mod wanted;
