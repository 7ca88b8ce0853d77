// The reading of a block: its records, which fill its table, and the whole of it with the check of its loops.
#![tactic(auto)]

pub mod faults;
pub mod reader;
pub mod records;
pub mod steps;
pub mod whole;

// What the header declares.
#[derive(Clone, Copy)]
pub struct Declared {
    pub version: u16,
    pub inputs: u16,
    pub outputs: u16,
    pub locals: u16,
}

// What has been read: the first byte not read yet, and how many statements, pauses and locals there were.
#[derive(Clone, Copy)]
pub struct Cursor {
    pub at: usize,
    pub statements: usize,
    pub pauses: u16,
    pub locals: u16,
}

// What stands around a statement: traps, locals, these locals as bits, and how many statements may still stand on the path.
#[derive(Clone, Copy)]
pub struct Context {
    pub traps: u16,
    pub nested: u16,
    pub scope: u64,
    pub room: u16,
}
