// The levels of open statements, which stand in a lent array, the outermost first.

// What opened a level, by which it is closed and declares: the text; the first part of a present; its second part or a loop, which `end` closes
// and which declare nothing; a suspend; brackets; a trap; a signal.
#[derive(Clone, Copy, PartialEq, Eq, Debug)]
pub enum Scope {
    Outermost,
    ThenPart,
    EndPart,
    SuspendBody,
    InBrackets,
    TrapBody,
    SignalBody,
}

// A place where statements are open: what opened it; how many brackets opened at it besides; where its
// name stands and its signal's number; and where in the block it begins, its last arm begins, and its last basic statement begins.
#[derive(Clone, Copy)]
pub struct Level {
    pub kind: Scope,
    pub start: u16,
    pub arm: u16,
    pub link: u16,
    pub name: usize,
    pub number: usize,
    pub brackets: usize,
}

// The outermost level, at which nothing stands yet.
pub const OUTERMOST: Level = Level {
    kind: Scope::Outermost,
    start: 0,
    arm: 0,
    link: 0,
    name: 0,
    number: 0,
    brackets: 0,
};
