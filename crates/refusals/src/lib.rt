// Why a call is turned down: the refusals by name, and their numbers.
#![tactic(auto)]

ghost use Rattle.std.specs.Prelude.{◌≡◌, false, T, MatchResult};
ghost use Rattle.refusals.specs.Refusals.{number, has_refusal, why_of};

// Why a call is turned down.
#[derive(Clone, Copy, Debug, PartialEq, Eq)]
pub enum Why {
    Broken,
    Kind,
    Edition,
    Limit,
    Signal,
    Exit,
    Shape,
    Loop,
    State,
    Clash,
    Input,
    Room,
    NotConstructive,
    Index,
    Text,
    Question,
    OtherBlock,
    Party,
    Shelf,
    Taken,
    Quota,
    Absent,
    Interface,
    Wide,
    Pairs,
    Form,
}

// Why a call is turned down, and at which place.
#[derive(Clone, Copy, Debug, PartialEq, Eq)]
pub struct Refused {
    pub why: Why,
    pub place: usize,
}

impl Why {
    // Turned down for this, at a place.
    pub fn at(self, place: usize) -> Refused
        ensures { result ≡ record { why = self; place = place } }
    {
        Refused { why: self, place }
    }
}

// A number that no refusal has.
#[derive(Clone, Copy, Debug, PartialEq, Eq)]
pub struct NoRefusal(pub u16);

impl From<Why> for u16 {
    ghost from_gives = { λ why n. n ≡ number why };

    #[tactic(auto, unfolding(crate::specs::Refusals::number))]
    fn from(why: Why) -> u16 {
        match why {
            Why::Broken => 1,
            Why::Kind => 2,
            Why::Edition => 3,
            Why::Limit => 4,
            Why::Signal => 5,
            Why::Exit => 6,
            Why::Shape => 7,
            Why::Loop => 8,
            Why::State => 9,
            Why::Clash => 10,
            Why::Input => 11,
            Why::Room => 12,
            Why::NotConstructive => 13,
            Why::Index => 14,
            Why::Text => 15,
            Why::Question => 16,
            Why::OtherBlock => 17,
            Why::Party => 18,
            Why::Shelf => 19,
            Why::Taken => 20,
            Why::Quota => 21,
            Why::Absent => 22,
            Why::Interface => 23,
            Why::Wide => 24,
            Why::Pairs => 25,
            Why::Form => 26,
        }
    }
}

impl TryFrom<u16> for Why {
    type Error = NoRefusal;

    ghost try_from_gives = { λ n r. MatchResult r (λ why. T (has_refusal n) × (why ≡ why_of n)) (λ e. (has_refusal n ≡ false) × (e.0 ≡ n)) };

    #[tactic(auto, unfolding(crate::specs::Refusals::number, crate::specs::Refusals::has_number, crate::specs::Refusals::first_with))]
    fn try_from(n: u16) -> Result<Self, NoRefusal> {
        match n {
            1 => Ok(Why::Broken),
            2 => Ok(Why::Kind),
            3 => Ok(Why::Edition),
            4 => Ok(Why::Limit),
            5 => Ok(Why::Signal),
            6 => Ok(Why::Exit),
            7 => Ok(Why::Shape),
            8 => Ok(Why::Loop),
            9 => Ok(Why::State),
            10 => Ok(Why::Clash),
            11 => Ok(Why::Input),
            12 => Ok(Why::Room),
            13 => Ok(Why::NotConstructive),
            14 => Ok(Why::Index),
            15 => Ok(Why::Text),
            16 => Ok(Why::Question),
            17 => Ok(Why::OtherBlock),
            18 => Ok(Why::Party),
            19 => Ok(Why::Shelf),
            20 => Ok(Why::Taken),
            21 => Ok(Why::Quota),
            22 => Ok(Why::Absent),
            23 => Ok(Why::Interface),
            24 => Ok(Why::Wide),
            25 => Ok(Why::Pairs),
            26 => Ok(Why::Form),
            _ => Err(NoRefusal(n)),
        }
    }
}

// The number of a refusal.
pub fn number_of(why: Why) -> u16
    ensures { result ≡ number why }
{
    u16::from(why)
}

// The refusal of a number, and INDEX for a number that no refusal has.
#[tactic(auto, using(crate::proofs::Laws::no_refusal))]
pub fn refusal(n: u16) -> Why
    ensures { result ≡ why_of n }
{
    Why::try_from(n).unwrap_or(Why::Index)
}
