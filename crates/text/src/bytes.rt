// The bytes of a text: spaces, letters and digits, and the runs of them.
ghost use Rattle.std.specs.Prelude.{◌≡◌, ◌+◌, length, drop};
ghost use Rattle.std.specs.List.{take_while};
ghost use Rattle.text.specs.Tokens.{is_space, is_digit, is_letter, in_word, spaces_of, word_of};

// A space is a tab, a line feed, a carriage return or a blank.
pub fn space(b: u8) -> bool
    ensures { result ≡ is_space b }
{
    matches!(b, b'\t' | b'\n' | b'\r' | b' ')
}

// The ten digits.
pub fn digit(b: u8) -> bool
    ensures { result ≡ is_digit b }
{
    b.is_ascii_digit()
}

// Letters of either case.
pub fn letter(b: u8) -> bool
    ensures { result ≡ is_letter b }
{
    b.is_ascii_alphabetic()
}

// A letter or a digit.
pub fn word_byte(b: u8) -> bool
    ensures { result ≡ in_word b }
{
    letter(b) || digit(b)
}

// How many spaces stand at the front.
fn spaces(text: &[u8]) -> usize
    ensures { result ≡ length (take_while is_space text.now) }
{
    text.iter().take_while(|b| space(**b)).count()
}

// How many letters and digits stand at the front.
fn word_size(text: &[u8]) -> usize
    ensures { result ≡ length (take_while in_word text.now) }
{
    text.iter().take_while(|b| word_byte(**b)).count()
}

// The text from a place on; nothing where the place is past its end.
fn rest(text: &[u8], at: usize) -> &[u8]
    ensures { result.now ≡ drop at text.now }
{
    text.get(at..).unwrap_or(&[])
}

// The first place from here on that has no space; the end where there is none, and the place itself where it is past the end.
pub fn past_spaces(text: &[u8], at: usize) -> usize
    ensures { result ≡ at + spaces_of (drop at text.now) }
{
    at + spaces(rest(text, at))
}

// The word that begins here; no bytes where none does.
pub fn word(text: &[u8], at: usize) -> &[u8]
    ensures { result.now ≡ word_of (drop at text.now) }
{
    let text = rest(text, at);
    &text[..word_size(text)]
}
