// What the programs share: the file that each opens and reads.
#![tactic(auto)]

ghost use Rattle.std.specs.Prelude.{◌+◌, ◌<◌, ◌≤◌, length, take, IfOk};
ghost use Rattle.std.specs.Io.KnownBytes.{Consumes, IsAtEnd};

use std::fs::File;
use std::io;
use std::io::Read;
use std::rt::Files;

// Opens a file to read. Where it can't be opened that is said, and the answer is the error. A path that is no text can't be opened.
pub fn open<R: Files + Eprint>(rt: &R, path: &[u8]) -> io::Result<R::File> {
    match std::str::from_utf8(path) {
        Ok(path) => open_file(rt, path),
        Err(_) => {
            eprintln!(rt; "a path that is no text")?;
            Err(io::Error::from(io::ErrorKind::InvalidInput))
        }
    }
}

// The same of a path that is text.
pub fn open_file<R: Files + Eprint>(rt: &R, path: &str) -> io::Result<R::File> {
    match File::open(rt, path) {
        Ok(file) => Ok(file),
        Err(e) => {
            eprintln!(rt; "{path}: {e}")?;
            Err(e)
        }
    }
}

// Reads until the buffer is full or the file ends, and answers how many bytes it put at the buffer's front. A read that fails is the answer, whatever was read before it. (A
// `while`: a turn goes on by what a read gave.)
pub fn read_full<R: Read>(file: &mut R, buffer: &mut [u8]) -> io::Result<usize>
    ensures within { IfOk result (λ n. n ≤ length buffer.new) }
    ensures bytes { IfOk result (λ n. Consumes (R.remaining file.old) (R.remaining file.new) (take n buffer.new)) }
    ensures short { IfOk result (λ n. n < length buffer.new → IsAtEnd (R.remaining file.new)) }
{
    let mut done = 0;
    while done < buffer.len() {
        let n = file.read(&mut buffer[done..])?;
        if n == 0 {
            return Ok(done);
        }
        done += n;
    }
    Ok(done)
}
