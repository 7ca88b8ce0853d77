// The tokens of a text: keywords, names, numbers and marks.
ghost use Rattle.std.specs.Prelude.{◌≡◌, true, false, ◌+◌, ◌<◌, length, drop, get_or};
ghost use Rattle.text.specs.Tokens.{keywords, word_of, is_name, word_token, in_word, is_mark, same};
ghost use Rattle.text.specs.Coded.{keyed, keyword_number, number_value, kind_of, FrontAt, past_spaces};

use crate::bytes::{digit, letter, past_spaces, word, word_byte};
use crate::signs::{
    BESIDE, ELSE, EMIT, END, EXIT, IN, INPUT, LOOP, NOTHING, OUTPUT, PAUSE, PRESENT, SIGNAL,
    SUSPEND, THEN, TRAP, VERSION, WHEN,
};
use records::numerals::number_at;

// What a token is: a keyword or a mark by its number, a name, a number with what it stands for, no token, or the end of the text.
#[derive(Clone, Copy, PartialEq, Eq, Debug)]
pub enum Kind {
    Sign(u16),
    Name,
    Number(u64),
    Nothing,
    End,
}

// A token, its first byte and the first behind it.
#[derive(Clone, Copy)]
pub struct Token {
    pub kind: Kind,
    pub start: usize,
    pub end: usize,
}

// The keyword with a key, which is its bytes as one number with its length in the lowest three bits. A match over the words themselves would
// tell a proof their lengths alone.
fn keyword_with(key: u64) -> Option<u16>
    ensures { result ≡ keyed 0 keywords key }
{
    let sign = match key {
        232906572834241399 => NOTHING,
        3485830155141 => PAUSE,
        15624530732 => EMIT,
        262179834441732999 => PRESENT,
        14817117092 => THEN,
        13616505644 => ELSE,
        52654891 => END,
        226151037027462047 => SUSPEND,
        14817117116 => WHEN,
        15090809700 => LOOP,
        15083475876 => TRAP,
        226122 => IN,
        15624553260 => EXIT,
        953325759187870 => SIGNAL,
        248677969098386359 => VERSION,
        4001492071245 => INPUT,
        1024381973408638 => OUTPUT,
        _ => return None,
    };
    Some(sign)
}

// The keyword that a word is, by its number.
fn keyword(word: &[u8]) -> Option<u16>
    ensures { result ≡ keyword_number word.now }
{
    let size = word.len();
    if 7 < size {
        return None;
    }
    keyword_with(number_at(word, 0, size) * 8 + size as u64)
}

// What a word stands for where it is a number.
fn number(word: &[u8]) -> Option<u64>
    ensures { result ≡ number_value word.now }
{
    if 5 < word.len() {
        return None;
    }
    let mut value: u64 = 0;
    for b in word {
        if !digit(*b) {
            return None;
        }
        value = value * 10 + (*b - b'0') as u64;
    }
    if 65535 < value {
        return None;
    }
    Some(value)
}

// A name begins with a letter and has at most sixteen bytes.
fn name(word: &[u8]) -> bool
    ensures { result ≡ is_name word.now }
{
    word.first().is_some_and(|b| letter(*b)) && word.len() <= 16
}

// What a word is.
fn word_kind(word: &[u8]) -> Kind
    ensures { result ≡ kind_of (word_token word.now) }
{
    if let Some(k) = keyword(word) {
        return Kind::Sign(k);
    }
    if name(word) {
        return Kind::Name;
    }
    match number(word) {
        Some(v) => Kind::Number(v),
        None => Kind::Nothing,
    }
}

// The token that the word here is; where none begins here the word is empty.
pub fn word_at(text: &[u8], at: usize) -> Token
    ensures word { (result.kind ≡ kind_of (word_token (word_of (drop at text.now)))) × (result.start ≡ at) × (result.end ≡ at + length (word_of (drop at text.now))) }
    ensures front { at < length text.now → in_word (get_or text.now at 0) ≡ true → FrontAt text.now at result }
{
    let word = word(text, at);
    Token {
        kind: word_kind(word),
        start: at,
        end: at + word.len(),
    }
}

// A mark of one byte.
fn mark(b: u8) -> bool
    ensures { result ≡ is_mark b }
{
    matches!(b, b',' | b';' | b'[' | b']')
}

// The mark here, or no token; a word does not begin here.
fn mark_at(text: &[u8], at: usize) -> Token
    requires { at < length text.now }
    ensures { in_word (get_or text.now at 0) ≡ false → FrontAt text.now at result }
{
    let b = text[at];
    let end = at + 1;
    if mark(b) {
        return Token {
            kind: Kind::Sign(b as u16),
            start: at,
            end,
        };
    }
    if b == b'|' && end < text.len() && text[end] == b'|' {
        return Token {
            kind: Kind::Sign(BESIDE),
            start: at,
            end: end + 1,
        };
    }
    Token {
        kind: Kind::Nothing,
        start: at,
        end,
    }
}

// The first token from a place on.
pub fn token_at(text: &[u8], at: usize) -> Token
    ensures { FrontAt text.now (past_spaces text.now at) result }
{
    let start = past_spaces(text, at);
    if start < text.len() {
        if word_byte(text[start]) {
            return word_at(text, start);
        }
        return mark_at(text, start);
    }
    Token {
        kind: Kind::End,
        start,
        end: start,
    }
}

// The words at two places have the same bytes.
pub fn same_word(text: &[u8], a: usize, b: usize) -> bool
    ensures { result ≡ same (word_of (drop a text.now)) (word_of (drop b text.now)) }
{
    word(text, a) == word(text, b)
}
