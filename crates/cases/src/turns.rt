// The turns of a program's loop, which answers cases until none is left.
ghost use Rattle.std.specs.Prelude.{◌≡◌, ◌-◌, ◌<◌, if◌then◌else◌};
ghost use Rattle.cases.specs.Block.{is_more};

use crate::run::Stop;
use std::io::{Stderr, Stdout, Write};

// A loop has to end, and nothing says that the input does: the turns that are left count down from a number that no run
// uses up.
#[derive(Clone, Copy)]
pub struct Turns {
    pub left: u64,
}

impl Turns {
    pub fn all() -> Turns
        ensures { result.left ≡ 18446744073709551615 }
    {
        Turns { left: u64::MAX }
    }

    // The turns after one: none where the run does not go on.
    pub fn after(self, progress: Result<(), Stop>, output: Stdout, errors: Stderr) -> Turns
        requires { 0 < self.left }
        ensures less { result.left < self.left }
        ensures stops { result.left ≡ (if is_more progress then self.left - 1 else 0) }
    {
        if goes_on(progress, output, errors) {
            Turns {
                left: self.left - 1,
            }
        } else {
            Turns { left: 0 }
        }
    }
}

// Whether to go on, and what is written where the run stops.
fn goes_on(progress: Result<(), Stop>, output: Stdout, errors: Stderr) -> bool
    ensures { result ≡ is_more progress }
{
    match progress {
        Ok(()) => true,
        Err(stop) => {
            tell(stop, output, errors);
            false
        }
    }
}

// Once the input has ended and all of it is answered, END is written, so what a failed read or write cuts short shows.
fn tell(stop: Stop, mut output: Stdout, mut errors: Stderr) {
    let _told = match stop {
        Stop::Ended => output.write_all(b"END\n").is_ok(),
        Stop::Failed => errors
            .write_all(b"stopped: a read or a write failed, or a record is cut short\n")
            .is_ok(),
    };
}
