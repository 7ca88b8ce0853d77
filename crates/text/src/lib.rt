// Blocks as text: the tokens of a text, its reading and its writing.
#![tactic(auto)]

pub mod bytes;
pub mod signs;
pub mod tokens;
