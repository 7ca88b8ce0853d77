// What may stand next in a statement.

// A statement; what follows one; the name behind `emit`, `exit`, `present`, `trap`, `signal` and `when`; `then`; and `in`.
#[derive(Clone, Copy, PartialEq, Eq, Debug)]
pub enum Mode {
    Due,
    After,
    EmitName,
    ExitName,
    PresentName,
    TrapName,
    SignalName,
    WhenName,
    ThenDue,
    InDue,
}
