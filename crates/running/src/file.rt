// Files of which a missing one is empty.
use std::io;
use std::io::ErrorKind;
use std::rt::Files;

// Opens a file for reading; none where it is missing.
pub fn open<R: Files>(files: &R, path: &[u8]) -> io::Result<Option<R::File>> {
    match reading::open(files, path) {
        Ok(file) => Ok(Some(file)),
        Err(e) if e.kind() == ErrorKind::NotFound => Ok(None),
        Err(e) => Err(e),
    }
}
