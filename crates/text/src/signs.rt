// The signs of a text by number: the keywords in the order of the list, and the marks by the byte that they begin with.

pub const NOTHING: u16 = 0;

pub const PAUSE: u16 = 1;

pub const EMIT: u16 = 2;

pub const PRESENT: u16 = 3;

pub const THEN: u16 = 4;

pub const ELSE: u16 = 5;

pub const END: u16 = 6;

pub const SUSPEND: u16 = 7;

pub const WHEN: u16 = 8;

pub const LOOP: u16 = 9;

pub const TRAP: u16 = 10;

pub const IN: u16 = 11;

pub const EXIT: u16 = 12;

pub const SIGNAL: u16 = 13;

pub const VERSION: u16 = 14;

pub const INPUT: u16 = 15;

pub const OUTPUT: u16 = 16;

pub const COMMA: u16 = 44;

pub const SEMICOLON: u16 = 59;

pub const BRACKET: u16 = 91;

pub const CLOSED: u16 = 93;

pub const BESIDE: u16 = 124;
