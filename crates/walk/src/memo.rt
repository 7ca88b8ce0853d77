// What a walk keeps: what must and can gave a task at an event, in entries of eight words of lent memory. Where an entry stands decides time and nothing else.
ghost use Rattle.std.specs.Prelude.{◌≡◌, IfSome, Bool, true, false, List, ℕ, ◌+◌, ◌%◌, ◌<◌, get_or, set};
ghost use Rattle.sets.specs.Words.{bits};
ghost use Rattle.rules.specs.Events.{unknown};
ghost use Rattle.rules.specs.MustCan.{can, local_status};
ghost use Rattle.theorems.specs.Order.{Agree};
ghost use Rattle.tables.specs.declared.Table.{Table};
ghost use Rattle.words.specs.Words.{event_of, given_of, mark_of};
ghost use Rattle.walk.specs.Memo.{going_number, mark_number, tag_of, known_on, Remembers, Sound};

use forms::form::Task;
use words::events::{Heard, Seen};
use words::given::{GivenWords, Mark, MustCan, settled_for};

// What must and can gave, and the signals whose statuses were asked for on the way; under open mark only can is meant.
#[derive(Clone, Copy)]
pub struct Found {
    pub said: MustCan,
    pub reads: u64,
}

// What was found of a task at an event. The tag says which task and mark; 0 is nobody's.
#[derive(Clone, Copy)]
pub struct Entry {
    pub tag: u64,
    pub event: Heard,
    pub found: Found,
}

// A task and a mark in one number.
pub(crate) fn tag_of(task: Task, mark: Mark) -> u64
    requires { task.at < 512 }
    ensures { result ≡ tag_of task (mark_of mark) }
{
    let going = task.going as u64;
    let mark = mark as u64 + 1;
    8 * task.at as u64 + 2 * going + mark
}

// The codes that a word holds.
fn codes_in(w: u64) -> u32
    ensures { result ≡ w % 4294967296 }
{
    (w % 4294967296) as u32
}

fn word_at(memo: &[u64], j: usize) -> u64
    ensures { result ≡ get_or memo.now j 0 }
{
    if j < memo.len() { memo[j] } else { 0 }
}

fn put_word(memo: &mut [u64], j: usize, w: u64)
    ensures { memo.new ≡ set memo.old j w }
{
    if j < memo.len() {
        memo[j] = w;
    }
}

// The entry of a number, where there is one.
pub(crate) fn entry_at(memo: &[u64], i: usize) -> Option<Entry>
    ensures { (tab : Table) (live : List Bool) → Sound tab live memo.now → IfSome result (Remembers tab live) }
{
    if memo.len() / 8 <= i {
        return None;
    }
    let j = 8 * i;
    let tag = word_at(memo, j);
    let present = word_at(memo, j + 1);
    let absent = word_at(memo, j + 2);
    let reads = word_at(memo, j + 3);
    let must_signals = word_at(memo, j + 4);
    let can_signals = word_at(memo, j + 5);
    let must_codes = codes_in(word_at(memo, j + 6));
    let can_codes = codes_in(word_at(memo, j + 7));
    let event = Heard { present, absent };
    let must = GivenWords {
        signals: must_signals,
        codes: must_codes,
    };
    let can = GivenWords {
        signals: can_signals,
        codes: can_codes,
    };
    let said = MustCan { must, can };
    let found = Found { said, reads };
    Some(Entry { tag, event, found })
}

// The first four words of an entry from j on, and the last four.
fn put_first(memo: &mut [u64], j: usize, a: u64, b: u64, c: u64, d: u64)
    requires { j < 65536 }
    ensures { memo.new ≡ set (set (set (set memo.old j a) (j + 1) b) (j + 2) c) (j + 3) d }
{
    put_word(memo, j, a);
    put_word(memo, j + 1, b);
    put_word(memo, j + 2, c);
    put_word(memo, j + 3, d);
}

fn put_last(memo: &mut [u64], j: usize, a: u64, b: u64, c: u64, d: u64)
    requires { j < 65536 }
    ensures { memo.new ≡ set (set (set (set memo.old (j + 4) a) (j + 5) b) (j + 6) c) (j + 7) d }
{
    put_word(memo, j + 4, a);
    put_word(memo, j + 5, b);
    put_word(memo, j + 6, c);
    put_word(memo, j + 7, d);
}

// An entry written, where there is room.
pub(crate) fn note(memo: &mut [u64], i: usize, new: Entry)
    requires { i < 1024 }
    ensures { (tab : Table) (live : List Bool) → Sound tab live memo.old → Remembers tab live new → Sound tab live memo.new }
{
    if i < memo.len() / 8 {
        put_first(
            memo,
            8 * i,
            new.tag,
            new.event.present,
            new.event.absent,
            new.found.reads,
        );
        put_last(
            memo,
            8 * i,
            new.found.said.must.signals,
            new.found.said.can.signals,
            new.found.said.must.codes as u64,
            new.found.said.can.codes as u64,
        );
    }
}

// Whether two events agree on a set of signals.
fn agree(a: Heard, b: Heard, on: u64) -> bool
    ensures { result ≡ true → Agree (bits on) (event_of a) (event_of b) }
{
    let present = a.present ^ b.present;
    let absent = a.absent ^ b.absent;
    (present | absent) & on == 0
}

// Of the signals asked for, those with a known status.
pub(crate) fn known_reads(e: Heard, reads: u64) -> u64
    ensures { bits result ≡ known_on e (bits reads) }
{
    reads & (e.present | e.absent)
}

// Whether an entry is this task's, at an event that agrees with this one on all that was asked for.
pub(crate) fn recalls(old: Entry, tag: u64, e: Heard) -> bool
    ensures { result ≡ true → (old.tag ≡ tag) × Agree (bits old.found.reads) (event_of old.event) (event_of e) }
{
    old.tag == tag && agree(old.event, e, old.found.reads)
}

// Whether an entry is this body's, and settles the local's status at an event that has every status that was known there.
pub(crate) fn settles(old: Entry, tag: u64, mark: Mark, s: u16, doubt: Heard) -> bool
    ensures { result ≡ true → (old.tag ≡ tag) × Agree (known_on old.event (bits old.found.reads)) (event_of old.event) (event_of doubt)
        × (s < 64 → local_status (can (mark_of mark)) s (given_of old.found.said.must) (given_of old.found.said.can) ≡ unknown → ⊥) }
{
    old.tag == tag
        && agree(old.event, doubt, known_reads(old.event, old.found.reads))
        && settled_for(mark, s, old.found.said) != Seen::Unknown
}
