// The records of document 01: the state record, the log record and the input set.
#![tactic(auto)]

pub mod bits;
pub mod clash;
pub mod fields;
pub mod log;
pub mod numerals;
pub mod parts;
pub mod state;
