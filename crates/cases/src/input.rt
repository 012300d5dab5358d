// Cases from standard input that are a heading and the bytes that follow it.
ghost use Rattle.std.specs.Prelude.{◌≡◌, ◌<◌, ◌⊎◌, Ok, Err, length};
ghost use Rattle.cases.specs.Block.{Headed};

use crate::record::is_case;
use crate::run::Stop;
use std::io::Stdin;

// Reads a heading, a record with the given letter. One of another form is a failure, since nothing says where the next
// case begins.
pub fn read_heading(mut input: Stdin, heading: &mut [u8], letter: u8) -> Result<(), Stop>
    requires { 1 < length heading.old }
    ensures { Headed letter heading.new result }
{
    match reading::fill(&mut input, heading) {
        Ok(0) => Err(Stop::Ended),
        Ok(count) if count == heading.len() && is_case(heading) && heading[0] == letter => Ok(()),
        _ => Err(Stop::Failed),
    }
}

// Reads as many bytes as are lent. An input that ends before is a failure.
pub fn read_bytes(mut input: Stdin, bytes: &mut [u8]) -> Result<(), Stop>
    ensures { (result ≡ Ok tt) ⊎ (result ≡ Err Stop.Failed) }
{
    match reading::fill(&mut input, bytes) {
        Ok(count) if count == bytes.len() => Ok(()),
        _ => Err(Stop::Failed),
    }
}
