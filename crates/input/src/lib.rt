// Reading a file or standard input, which may come in pieces, until it ends or a lent buffer is full; and whether a program was given an argument.
#![tactic(auto)]

ghost use Rattle.std.specs.Prelude.{◌≡◌, ◌<◌, ◌≤◌, length, take, slice_range, IfOk};
ghost use Rattle.std.specs.Io.KnownBytes.{Consumes, IsAtEnd};
ghost use Rattle.io.specs.Counts.{IsPrefixLen};
ghost use Rattle.input.specs.Steps.Came.{came, More};

use std::env::FillError;
use std::io::Read;
use std::rt::Env;

// A read that failed, and how many bytes had come before it.
#[derive(Clone, Copy)]
pub struct Failed {
    pub count: usize,
}

// How many bytes came, also before a read that failed.
pub fn count_of(read: Result<usize, Failed>) -> usize
    ensures { result ≡ came read }
{
    match read {
        Ok(count) => count,
        Err(failed) => failed.count,
    }
}

// One read, after the bytes that have come.
fn read_more<R: Read>(reader: &mut R, buf: &mut [u8], done: usize) -> Result<usize, Failed>
    requires { done ≤ length buf.old }
    ensures count { More done (length buf.old) (came result) }
    ensures front { take done buf.new ≡ take done buf.old }
    ensures bytes { Consumes (R.remaining reader.old) (R.remaining reader.new)
        (slice_range buf.new done (came result)) }
    ensures end { IfOk result (λ n. n ≡ done → done < length buf.old → IsAtEnd (R.remaining reader.new)) }
{
    match reader.read(&mut buf[done..]) {
        Ok(n) => Ok(done + n),
        Err(_) => Err(Failed { count: done }),
    }
}

// Reads until the end, until the buffer is full or until a read fails. A read that brings nothing is the end.
// What the reader gave, also before a read that failed, stands at the front of the buffer.
pub fn read_all<R: Read>(reader: &mut R, buf: &mut [u8]) -> Result<usize, Failed>
    ensures count { IsPrefixLen (came result) buf.new }
    ensures bytes { Consumes (R.remaining reader.old) (R.remaining reader.new)
        (take (came result) buf.new) }
    ensures end { IfOk result (λ n. n < length buf.new → IsAtEnd (R.remaining reader.new)) }
{
    let mut done: usize = 0;
    // kept: each read says how much came, so there is no range to go over
    while done < buf.len() {
        let count = read_more(reader, buf, done)?;
        if count == done {
            return Ok(done);
        }
        done = count;
    }
    Ok(done)
}

// Whether a program was given an argument. Its own name is argument 0.
pub fn has_argument(rt: &impl Env) -> bool {
    !matches!(rt.arg(1, &mut [0u8; 1]), Err(FillError::NotPresent))
}
