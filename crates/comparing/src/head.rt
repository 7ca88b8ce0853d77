// The head of a case.
use crate::{Failure, Stop, fill};
use answering::Call;
use records::numerals::number_at;
use std::io::Read;

// Which call a case makes, none where there is no such, and how many bytes come after the head.
#[derive(Clone, Copy)]
pub(crate) struct Head {
    pub(crate) call: Option<Call>,
    pub(crate) block: usize,
    pub(crate) state: usize,
    pub(crate) log: usize,
    // Of a shelf or a second block the size, and how many bytes of it come before the zeros.
    pub(crate) beside: usize,
    pub(crate) stands: usize,
}

// Reads a head, none where the file ends before it: kind, size of the state, of the log (2 bytes) and of the block (4), then two numbers of 8 bytes each, and from
// call 6 on two more.
pub(crate) fn read(cases: &mut impl Read) -> Result<Option<Head>, Stop> {
    let mut head = [0u8; 24];
    let count = reading::read_full(cases, &mut head).map_err(Failure::Cases)?;
    if count == 0 {
        return Ok(None);
    }
    if count < 24 {
        return Err(Stop::Cut);
    }
    let mut more = [0u8; 16];
    if head[0] >= 6 {
        fill(cases, &mut more)?;
    }
    let third = number_at(&more, 0, 8);
    let fourth = number_at(&more, 8, 8);
    let numbers = [
        number_at(&head, 8, 8),
        number_at(&head, 16, 8),
        third,
        fourth,
    ];
    Ok(Some(Head {
        call: call(head[0], numbers),
        state: number_at(&head, 1, 1) as usize,
        log: number_at(&head, 2, 2) as usize,
        block: number_at(&head, 4, 4) as usize,
        beside: third as usize,
        stands: fourth as usize,
    }))
}

// The call of a kind, with the numbers that it takes.
fn call(kind: u8, numbers: [u64; 4]) -> Option<Call> {
    let [first, second, third, fourth] = numbers;
    let room = second as usize;
    let call = match kind {
        1 => Call::Check,
        2 => Call::Fresh,
        3 => Call::Instant(first),
        4 => Call::Logged(first, second),
        5 => Call::Excerpt(second),
        6 => Call::Heard(first, third),
        7 => Call::HeardLogged(first, third, second),
        8 => Call::Reason(first, third, fourth, second),
        9 => Call::Install(first, second),
        10 => Call::Fetch(first, second),
        11 => Call::Withdraw(first, second),
        12 => Call::Maze(first),
        13 => Call::Alike(room),
        14 => Call::DoubleLoops(room),
        15 => Call::ReadText(room),
        16 => Call::WriteText(room),
        17 => Call::Convert(room),
        _ => return None,
    };
    Some(call)
}
