// The statement of a text while it is read: what each of its tokens does to the records and the places that are open.
#![tactic(auto)]

pub mod body;
mod bytes;
pub mod found;
pub mod levels;
pub mod modes;
mod moves;
pub mod steps;
