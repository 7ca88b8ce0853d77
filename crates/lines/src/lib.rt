// The lines of a run as text.
#![tactic(auto)]

ghost use Rattle.std.specs.Prelude.{◌≡◌, ℕ, ◌+◌, ◌≤◌, length};

use itoa::Buffer;
use std::marker::Model;

// Lines one after the other, in a buffer of SIZE bytes. A contract sees how many bytes they have.
#[derive(Drop)]
pub struct Text<const SIZE: usize> {
    bytes: [u8; SIZE],
    len: usize,
}

impl<const SIZE: usize> Model for Text<SIZE> {
    ghost Value = { ℕ };

    ghost view = { λ t. t.len };

    ghost invariant = { λ t. t.len ≤ SIZE };
}

impl<const SIZE: usize> Text<SIZE> {
    pub fn new() -> Self
        ensures { result ≡ 0 }
    {
        Text {
            bytes: [0; SIZE],
            len: 0,
        }
    }

    pub fn as_bytes(&self) -> &[u8]
        ensures { length result.now ≡ self.now }
    {
        &self.bytes[..self.len]
    }

    // Bytes as they are.
    fn put(&mut self, bytes: &[u8])
        requires { self.old + length bytes.now ≤ SIZE }
        ensures { self.new ≡ self.old + length bytes.now }
    {
        let end = self.len + bytes.len();
        let all = &mut self.bytes[..];
        all[self.len..end].copy_from_slice(bytes);
        self.len = end;
    }

    // A number in decimal and the byte after it: at most 21 bytes.
    fn put_number(&mut self, n: u64, after: u8)
        requires { self.old + 21 ≤ SIZE }
        ensures { self.new ≤ self.old + 21 }
    {
        self.put(Buffer::new().format(n).as_bytes());
        self.put(&[after]);
    }

    // The line of an instant, its six numbers: at most 126 bytes.
    pub fn put_line(&mut self, numbers: &[u64; 6])
        requires { self.old + 126 ≤ SIZE }
        ensures { self.new ≤ self.old + 126 }
    {
        let (last, front) = numbers.split_last().unwrap();
        for n in front {
            self.put_number(*n, b' ');
        }
        self.put_number(*last, b'\n');
    }

    // The line for 1 to 7 bytes that are left: 6 bytes.
    pub fn put_short(&mut self)
        requires { self.old + 6 ≤ SIZE }
        ensures { self.new ≤ self.old + 6 }
    {
        self.put(b"short\n");
    }

    // The line of a block that is turned down: at most 48 bytes.
    pub fn put_block(&mut self, number: u16, place: usize)
        requires { self.old + 48 ≤ SIZE }
        ensures { self.new ≤ self.old + 48 }
    {
        self.put(b"block ");
        self.put_number(number.into(), b' ');
        self.put_number(place as u64, b'\n');
    }
}
