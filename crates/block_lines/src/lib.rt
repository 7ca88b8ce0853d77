// The lines of the calls that take blocks alone, and of those on a shelf.
#![tactic(auto)]

pub mod blocks;
pub mod shelves;
