// Reading into a buffer that is lent.
#![tactic(auto)]

ghost use Rattle.std.specs.Prelude.{◌≡◌, ℕ, ◌≤◌, ◌<◌, length, take, IfOk, IfErr, IsErrAnd};
ghost use Rattle.std.specs.Io.KnownBytes.{Consumes, IsAtEnd};
ghost use Rattle.std.specs.IoError.{error_kind};
ghost use Rattle.std.specs.Str.{IsUtf8};

use std::io::{ErrorKind, Read};
use std::rt::Files;
use std::{fs, io};

// Opens a file for reading. A name that is not UTF-8 is an invalid input.
pub fn open<R: Files>(files: &R, name: &[u8]) -> io::Result<R::File>
    ensures { ¬ (IsUtf8 name.now) → IsErrAnd result (λ e. error_kind e ≡ ErrorKind.InvalidInput) }
{
    let Ok(path) = str::from_utf8(name) else {
        return Err(io::Error::new(ErrorKind::InvalidInput, "the name is not UTF-8"));
    };
    fs::open(files, path)
}

// Reads until the buffer is full or the input ends, and answers how many bytes then stand at the buffer's start. On an error none
// is lost: what was read until then stands there too.
pub fn read_full<R: Read>(reader: &mut R, buf: &mut [u8]) -> io::Result<usize>
    ensures in_bounds { IfOk result (λ n. n ≤ length buf.new) }
    ensures bytes { IfOk result (λ n.
        Consumes (R.remaining reader.old) (R.remaining reader.new) (take n buf.new)) }
    ensures end { IfOk result (λ n. n < length buf.new → IsAtEnd (R.remaining reader.new)) }
    ensures err { IfErr result (λ _. (n : ℕ) × (n ≤ length buf.new)
        × Consumes (R.remaining reader.old) (R.remaining reader.new) (take n buf.new)) }
{
    let mut done = 0;
    while done < buf.len() {
        let more = reader.read(&mut buf[done..])?;
        if more == 0 {
            break;
        }
        done += more;
    }
    Ok(done)
}
