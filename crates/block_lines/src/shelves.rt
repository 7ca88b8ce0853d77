// The calls on a shelf, by any party and under any name, of which the lowest two bytes count: number and place, and the shelf after the call or the block that was fetched.
use foldheron::{Refused, number_of};
use printing::{put_answer, put_bytes, put_until};
use std::io;

pub fn install(
    out: &impl Print,
    shelf: &mut [u8],
    party: u64,
    name: u64,
    block: &[u8],
) -> io::Result<()> {
    let answer = foldheron::install(shelf, two_bytes(party), two_bytes(name), block);
    put_answer(out, "install", &numbers(answer))?;
    put_until(out, shelf, 0)
}

pub fn withdraw(out: &impl Print, shelf: &mut [u8], party: u64, name: u64) -> io::Result<()> {
    let answer = foldheron::withdraw(shelf, two_bytes(party), two_bytes(name));
    put_answer(out, "withdraw", &numbers(answer))?;
    put_until(out, shelf, 0)
}

// A refusal hands no part back.
pub fn fetch(out: &impl Print, shelf: &[u8], party: u64, name: u64) -> io::Result<()> {
    match foldheron::fetch(shelf, two_bytes(party), two_bytes(name)) {
        Ok(part) => {
            put_answer(out, "fetch", &[0, 0])?;
            put_bytes(out, part)
        }
        Err(refused) => {
            put_answer(out, "fetch", &numbers(Err(refused)))?;
            put_bytes(out, b"")
        }
    }
}

fn two_bytes(n: u64) -> u16 {
    (n & 0xffff) as u16
}

fn numbers(answer: Result<(), Refused>) -> [u64; 2] {
    match answer {
        Ok(()) => [0, 0],
        Err(refused) => [number_of(refused.why).into(), refused.place as u64],
    }
}
