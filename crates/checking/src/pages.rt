// Blocks and states written for the cases.
use crate::changed;
use crate::lines::{Line, Triples};
use block::Declared;
use writing::{put_header, put_record};

// A page of zeros, filled from its front while there is room.
#[derive(Drop)]
struct Page<'a> {
    bytes: &'a mut [u8],
    len: usize,
}

impl Page<'_> {
    fn put(&mut self, bytes: &[u8]) {
        for byte in bytes {
            if let Some(to) = self.bytes.get_mut(self.len) {
                *to = *byte;
                self.len += 1;
            }
        }
    }

    // Numbers of two bytes each, the lower first.
    fn put_pairs(&mut self, numbers: &[u16]) {
        for n in numbers {
            self.put(&n.to_le_bytes());
        }
    }

    // A header of version 7.
    fn put_header(&mut self, inputs: u16, outputs: u16, locals: u16) {
        if self.bytes.len() >= 14 {
            let declared = Declared {
                version: 7,
                inputs,
                outputs,
                locals,
            };
            put_header(self.bytes, declared);
            self.len = 14;
        }
    }

    // A statement's record by its kind: of kinds that edition 1 does not have as well, 6 bytes for 33 to 35 and else 4.
    fn put_statement(&mut self, kind: u16, operand: u16) {
        match kind {
            0..=26 => self.put_record(kind, operand),
            33..=35 => self.put_pairs(&[6, kind, operand]),
            _ => self.put_pairs(&[4, kind]),
        }
    }

    // One of edition 1, where there is room for the longest.
    fn put_record(&mut self, kind: u16, operand: u16) {
        if self.bytes.len() >= 6 && self.len <= self.bytes.len() - 6 {
            self.len = put_record(self.bytes, self.len, kind, operand);
        }
    }

    // Inputs, outputs and locals, then for the statements how many times, kind and operand.
    fn put_records(&mut self, line: Line<'_>) {
        self.put_header(line.number(3), line.number(4), line.number(5));
        let mut numbers = line.numbers;
        numbers.nth(5);
        for [times, kind, operand] in Triples(numbers) {
            for _ in 0..times {
                self.put_statement(kind, operand);
            }
        }
    }
}

impl<'a> Line<'a> {
    // The block of a case in a page of zeros, by its form, the third of the line's numbers. 0: inputs, outputs, locals, then for the statements how many times, kind
    // and operand. 1: bytes. 2: how many bytes, all 0. 3: as 0, of edition 2. A block that does not fit has no bytes.
    pub fn block<'p>(&self, page: &'p mut [u8]) -> &'p [u8] {
        let mut made = Page {
            bytes: page,
            len: 0,
        };
        match self.number(2) {
            0 => made.put_records(*self),
            1 => {
                for n in self.numbers.skip(3) {
                    made.put(&[(n & 0xff) as u8]);
                }
            }
            3 => {
                made.put_records(*self);
                changed(made.bytes, 4, 2);
            }
            _ => made.len = self.number(3) as usize,
        }
        let Page { bytes, len } = made;
        bytes.get(..len).unwrap_or(&[])
    }
}

// The block that the line at the front of a text makes, and what comes after the line.
pub fn made<'p, 't>(text: &'t [u8], page: &'p mut [u8]) -> (&'p [u8], &'t [u8]) {
    let (line, rest) = Line::split(text, 1500);
    (line.block(page), rest)
}

// A state record by its version, statement count, phase and the lowest byte of its pauses.
pub fn state_of(version: u8, statements: u8, phase: u8, pauses: u8) -> [u8; 26] {
    let mut state = [0u8; 26];
    state[0] = 26;
    state[2] = 2;
    state[4] = version;
    state[6] = statements;
    state[8] = phase;
    state[10] = pauses;
    state
}

// A block with an input 0 and an output 1: present 0 then emit 1 else nothing.
pub fn tested() -> [u8; 30] {
    [
        14, 0, 1, 0, 1, 0, 5, 0, 1, 0, 1, 0, 0, 0, 6, 0, 19, 0, 0, 0, 6, 0, 18, 0, 1, 0, 4, 0, 16,
        0,
    ]
}
