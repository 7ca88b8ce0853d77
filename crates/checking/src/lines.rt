// Lines of text: a name, a bar, and numbers.
ghost use Rattle.std.specs.Iterator.{at_most};

use crate::Outcome;
use std::io;

// The numbers of a line, each up to a byte that is no digit, modulo 65,536. So many are left at most.
#[derive(Clone, Copy)]
pub struct Numbers<'a> {
    text: &'a [u8],
    left: usize,
}

impl Iterator for Numbers<'_> {
    type Item = u16;

    ghost remaining = { λ s. at_most s.left };

    fn next(&mut self) -> Option<u16> {
        let end = self.text.iter().position(|byte| !byte.is_ascii_digit())?;
        self.left = self.left.checked_sub(1)?;
        let digits = &self.text[..end];
        self.text = &self.text[end + 1..];
        Some(
            digits.iter().fold(0, |n: u16, digit| {
                n.wrapping_mul(10).wrapping_add(u16::from(digit & 0xf))
            }),
        )
    }
}

// The same, three at a time.
#[derive(Clone, Copy)]
pub(crate) struct Triples<'a>(pub(crate) Numbers<'a>);

impl Iterator for Triples<'_> {
    type Item = [u16; 3];

    ghost remaining = { λ s. at_most s.0.left };

    fn next(&mut self) -> Option<[u16; 3]> {
        Some([self.0.next()?, self.0.next()?, self.0.next()?])
    }
}

#[derive(Clone, Copy)]
pub struct Line<'a> {
    pub name: &'a [u8],
    pub numbers: Numbers<'a>,
}

impl<'a> Line<'a> {
    // The line at the front of a text, with so many numbers at most, and what comes after it.
    pub fn split(text: &'a [u8], most: usize) -> (Line<'a>, &'a [u8]) {
        let (name, after) = until(text, b'|');
        let end = after
            .iter()
            .position(|byte| *byte == b'\n')
            .map_or(after.len(), |at| at + 1);
        let (text, rest) = after.split_at(end);
        let numbers = Numbers { text, left: most };
        (Line { name, numbers }, rest)
    }

    // A number of the line, and 0 past the last.
    pub fn number(&self, i: usize) -> u16 {
        let mut numbers = self.numbers;
        numbers.nth(i).unwrap_or(0)
    }

    // The number and the place that are expected, the second from `i` on.
    pub fn expected(&self, i: usize) -> Outcome {
        let mut numbers = self.numbers.skip(i);
        let number = numbers.next().unwrap_or(0);
        Outcome(number.into(), numbers.next().unwrap_or(0).into())
    }
}

// The text up to a mark, and what comes after the mark and the byte behind it.
pub fn until(text: &[u8], mark: u8) -> (&[u8], &[u8]) {
    let end = text
        .iter()
        .position(|byte| *byte == mark)
        .unwrap_or(text.len());
    (&text[..end], text.get(end + 2..).unwrap_or(&[]))
}

// Goes through a text by its cases: each takes what is left of the text, and gives back what comes after it.
pub fn each_case<'a, F: FnMut(&'a [u8]) -> io::Result<&'a [u8]>>(
    text: &'a [u8],
    mut case: F,
) -> io::Result<()>
    requires { F.IsAlwaysCallable case }
{
    let mut rest = text;
    // A case takes a byte at least.
    for _ in 0..text.len() {
        if rest.is_empty() {
            break;
        }
        rest = case(rest)?;
    }
    Ok(())
}
