// An event as two words of signals, and a signal's status in it.
ghost use Rattle.std.specs.Prelude.{◌≡◌, ◌<◌};
ghost use Rattle.sets.specs.Numbers.{single};
ghost use Rattle.sets.specs.Words.{bits};
ghost use Rattle.rules.specs.Events.{giving};
ghost use Rattle.words.specs.Words.{event_of, seen_as};

// An event: the bit of a present signal and the bit of an absent one; neither is unknown.
#[derive(Clone, Copy, PartialEq, Eq)]
pub struct Heard {
    pub present: u64,
    pub absent: u64,
}

// A status.
#[derive(Clone, Copy, PartialEq, Eq)]
pub enum Seen {
    Present,
    Absent,
    Unknown,
}

// The set of one signal.
pub fn bit(s: u16) -> u64
    ensures { s < 64 → bits result ≡ single s }
{
    if s < 64 { 1u64 << s } else { 0 }
}

// Whether a signal is in a set.
pub(crate) fn has_signal(w: u64, s: u16) -> bool
    ensures { s < 64 → result ≡ bits w s }
{
    w & bit(s) != 0
}

// A signal's status.
pub fn status_at(e: Heard, s: u16) -> Seen
    ensures { s < 64 → seen_as result ≡ event_of e s }
{
    if has_signal(e.present, s) {
        Seen::Present
    } else if has_signal(e.absent, s) {
        Seen::Absent
    } else {
        Seen::Unknown
    }
}

// The event with a signal given a status.
pub fn heard_with(e: Heard, s: u16, v: Seen) -> Heard
    ensures { s < 64 → event_of result ≡ giving (event_of e) s (seen_as v) }
{
    let b = bit(s);
    let others = e.present & (e.present ^ b);
    match v {
        Seen::Present => Heard {
            present: e.present | b,
            absent: e.absent,
        },
        Seen::Absent => Heard {
            present: others,
            absent: e.absent | b,
        },
        Seen::Unknown => Heard {
            present: others,
            absent: e.absent & (e.absent ^ b),
        },
    }
}
