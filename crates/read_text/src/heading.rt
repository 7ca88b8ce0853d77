// The header of a text, one token a step.
ghost use Rattle.std.specs.Prelude.{Ok, ◌≡◌, cond, List, ℕ, ◌<◌, eqb};
ghost use Rattle.text.specs.Meaning.{declared};
ghost use Rattle.text.specs.declared.tokens.Token.{Token as CodedToken};
ghost use Rattle.text.specs.declared.tokens.Kind.TheVariants.{Name, Number};
ghost use Rattle.read_steps.specs.Found.{word_at, header_names};
ghost use Rattle.read_text.specs.Heads.{head_sign};
ghost use Rattle.read_text.specs.Reading.{HeadTakes, Leads, after_name};
ghost use Rattle.read_text.specs.declared.heading.Lead.TheVariants.{InputsEnd};

use read_steps::found::{Found, in_header};
use read_steps::steps::{Fault, Stage};
use text::signs::{COMMA, INPUT, OUTPUT, SEMICOLON, VERSION};
use text::tokens::Token;

// What is awaited: `version`, its number, the semicolon behind it, the inputs, the outputs, the name of an input and what stands behind it, the name
// of an output and what stands behind it, the statement's first token, and any other of its tokens.
#[derive(Clone, Copy, PartialEq, Eq, Debug)]
pub enum Awaits {
    VersionDue,
    NumberDue,
    VersionClosed,
    InputsDue,
    OutputsDue,
    InputName,
    InputNamed,
    OutputName,
    OutputNamed,
    BodyDue,
    Statement,
}

// What is awaited; the version; how many inputs there are, and how many names in all; where the header's names end; and the state of the
// statement.
#[derive(Clone, Copy)]
pub struct Reader {
    pub awaits: Awaits,
    pub version: u64,
    pub inputs: usize,
    pub signals: usize,
    pub end: usize,
    pub stage: Stage,
}

// Where a keyword or a mark of the header leads: to a fault, to what is awaited next, to the end of the inputs, which all names so far are, or into
// the statement, which begins with it.
#[derive(Clone, Copy)]
pub enum Lead {
    Fault,
    Next(Awaits),
    InputsEnd,
    Body,
}

// Where a keyword or a mark leads in the header.
pub fn head_sign(awaits: Awaits, sign: u16) -> Lead
    ensures { result ≡ head_sign awaits sign }
{
    match awaits {
        Awaits::VersionDue => on_one(sign, VERSION, Lead::Next(Awaits::NumberDue), Lead::Fault),
        Awaits::VersionClosed => on_one(
            sign,
            SEMICOLON,
            Lead::Next(Awaits::InputsDue),
            Lead::Fault,
        ),
        Awaits::InputsDue => {
            let outputs = on_one(sign, OUTPUT, Lead::Next(Awaits::OutputName), Lead::Body);
            on_one(sign, INPUT, Lead::Next(Awaits::InputName), outputs)
        }
        Awaits::OutputsDue => on_one(sign, OUTPUT, Lead::Next(Awaits::OutputName), Lead::Body),
        Awaits::InputNamed => {
            let end = on_one(sign, SEMICOLON, Lead::InputsEnd, Lead::Fault);
            on_one(sign, COMMA, Lead::Next(Awaits::InputName), end)
        }
        Awaits::OutputNamed => {
            let end = on_one(sign, SEMICOLON, Lead::Next(Awaits::BodyDue), Lead::Fault);
            on_one(sign, COMMA, Lead::Next(Awaits::OutputName), end)
        }
        Awaits::BodyDue => Lead::Body,
        _ => Lead::Fault,
    }
}

// One lead where the sign is a given one, else another.
fn on_one(sign: u16, key: u16, to: Lead, other: Lead) -> Lead
    ensures { result ≡ cond (eqb sign key) to other }
{
    if sign == key {
        return to;
    }
    other
}

// All names so far are inputs.
pub fn inputs_ended(r: Reader) -> Reader
    ensures { Leads r InputsEnd (Ok result) }
{
    Reader {
        awaits: Awaits::OutputsDue,
        inputs: r.signals,
        ..r
    }
}

// The version's number.
pub fn head_number(r: Reader, version: u64) -> Result<Reader, Fault>
    ensures { (text : List ℕ) (t : CodedToken) → t.kind ≡ Number version → HeadTakes text r t result }
{
    match r.awaits {
        Awaits::NumberDue => Ok(Reader {
            awaits: Awaits::VersionClosed,
            version,
            ..r
        }),
        _ => Err(Fault::Grammar),
    }
}

// A name is among those of the header that stand before a place.
fn again(text: &[u8], end: usize, name: usize) -> bool
    ensures { result ≡ declared (header_names text.now end) (word_at text.now name) }
{
    match in_header(text, end, name) {
        Found::Nothing => false,
        Found::Signal(_) => true,
        Found::Trap(_) => true,
    }
}

// What is awaited behind a name of the header, where one may stand.
fn after_name(awaits: Awaits) -> Option<Awaits>
    ensures { result ≡ after_name awaits }
{
    match awaits {
        Awaits::InputName => Some(Awaits::InputNamed),
        Awaits::OutputName => Some(Awaits::OutputNamed),
        _ => None,
    }
}

// A name of the header: it is new there, and has the next number.
pub fn head_name(text: &[u8], r: Reader, t: Token) -> Result<Reader, Fault>
    requires { r.signals < 18446744073709551615 }
    ensures { t.kind ≡ Name → HeadTakes text.now r t result }
{
    match after_name(r.awaits) {
        None => Err(Fault::Grammar),
        Some(awaits) => {
            if again(text, t.start, t.start) {
                return Err(Fault::Grammar);
            }
            Ok(Reader {
                awaits,
                signals: r.signals + 1,
                ..r
            })
        }
    }
}
