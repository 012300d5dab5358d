// Reading into a lent buffer, with the end of the input told from a failed read. No function is open to callers: `fill`
// is `pub` for the programs.
#![tactic(auto)]

ghost use Rattle.std.specs.Prelude.{◌≡◌};
ghost use Rattle.reading.specs.Read.{Filled, answer_of};

use std::io::{self, Read};

// How many bytes were read before the read that failed.
#[derive(Clone, Copy, Debug, PartialEq, Eq)]
pub struct ReadFailed {
    pub count: usize,
}

// Reads until buf is full, the input ends or a read fails. Answers how many bytes were read. Each turn goes on by what was
// read, so there is no sequence for a `for`.
pub fn fill<R: Read>(reader: &mut R, buf: &mut [u8]) -> Result<usize, ReadFailed>
    ensures { Filled buf.old result buf.new }
{
    let mut done = 0;
    while done < buf.len() {
        let count = answered(reader.read(&mut buf[done..]), done)?;
        if count == 0 {
            return Ok(done);
        }
        done += count;
    }
    Ok(done)
}

// What a read's answer says where so many bytes were read before: how many it put there, or that it failed after those.
fn answered(got: io::Result<usize>, done: usize) -> Result<usize, ReadFailed>
    ensures { result ≡ answer_of got done }
{
    match got {
        Ok(count) => Ok(count),
        Err(_) => Err(ReadFailed { count: done }),
    }
}
