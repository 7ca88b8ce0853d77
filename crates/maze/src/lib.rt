// The maze of a block's first instant: which rooms win, lose and draw, and its corridors one by one.
#![tactic(auto)]

pub mod corridors;
pub mod form;
pub mod view;
pub mod ways;

// The signals whose rooms win, lose and draw, as bits by signal number.
#[derive(Clone, Copy)]
pub struct Rooms {
    pub winning: u64,
    pub losing: u64,
    pub drawn: u64,
}

// A room: a signal's; a part's, by its statement's number, as a signal's room sees it; a test's gate, by the test's number, as a signal's room sees it; the dungeon.
#[derive(Clone, Copy)]
pub enum Room {
    Signal(usize),
    Part(usize, usize),
    Gate(usize, usize),
    Dungeon,
}

// A corridor and where it leads; none of that number; or no such room.
#[derive(Clone, Copy)]
pub enum Corridor {
    Visible(Room),
    Secret(Room),
    NoMore,
    NoRoom,
}
