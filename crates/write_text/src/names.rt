// Names made from numbers, each as a word of at most eight bytes in one number.
ghost use Rattle.std.specs.Prelude.{◌≡◌, ◌∷◌, ◌-◌, ◌<◌};
ghost use Rattle.text.specs.Shown.{decimal, letter, signal_word, trap_word};
ghost use Rattle.write_text.specs.Pieces.{coded, opening_name, closing_name};

use tables::kinds::{EMIT, EXIT, LOCAL, PRESENT, SUSPEND, TRAP};

// A number in decimal, its last digit highest.
pub(crate) fn digits(n: u16) -> u64
    ensures result_value { coded result ≡ decimal n }
    ensures upper_bound { result < 1099511627776 }
{
    let mut code: u64 = 0;
    let mut left = n as u64;
    while 10 <= left {
        code = code * 256 + (48 + left % 10);
        left = left / 10;
    }
    code * 256 + (48 + left)
}

// A letter before a number.
fn lettered(letter: u8, n: u16) -> u64
    requires { 0 < letter }
    ensures { coded result ≡ letter ∷ decimal n }
{
    u64::from(letter) + 256 * digits(n)
}

// `I` for an input, `O` for an output, `S` for a local.
fn letter_of(s: u16, inputs: u16, outputs: u16) -> u8
    ensures { result ≡ letter inputs outputs s }
{
    if s < inputs {
        b'I'
    } else if s - inputs < outputs {
        b'O'
    } else {
        b'S'
    }
}

pub(crate) fn signal_name(s: u16, inputs: u16, outputs: u16) -> u64
    ensures { coded result ≡ signal_word inputs outputs s }
{
    lettered(letter_of(s, inputs, outputs), s)
}

fn trap_name(n: u16) -> u64
    ensures { coded result ≡ trap_word n }
{
    lettered(b'T', n)
}

// The number of the trap that an exit of this depth leaves, among so many.
fn trap_left(traps: u16, depth: u16) -> u16
    ensures { result ≡ traps - 1 - depth }
{
    traps.saturating_sub(1).saturating_sub(depth)
}

// The name behind a statement's first word: none where it has none there.
#[tactic(auto, unfolding(crate::specs::Pieces::opening_name, crate::specs::Pieces::coded_in, sets::specs::Numbers::listed))]
pub(crate) fn opening_name(kind: u16, operand: u16, traps: u16, inputs: u16, outputs: u16) -> u64
    ensures { coded result ≡ opening_name kind operand traps inputs outputs }
{
    match kind {
        TRAP => trap_name(traps),
        EXIT => trap_name(trap_left(traps, operand)),
        EMIT | PRESENT | LOCAL => signal_name(operand, inputs, outputs),
        _ => 0,
    }
}

// The name behind a statement's last word: a suspend has its signal there.
#[tactic(auto, unfolding(crate::specs::Pieces::closing_name, crate::specs::Pieces::coded_in))]
pub(crate) fn closing_name(kind: u16, operand: u16, inputs: u16, outputs: u16) -> u64
    ensures { coded result ≡ closing_name kind operand inputs outputs }
{
    if kind == SUSPEND {
        signal_name(operand, inputs, outputs)
    } else {
        0
    }
}
