// The run of a program, which answers cases until none is left.
ghost use Rattle.cases.specs.Block.{Ran};

use crate::turns::Turns;
use std::io::{Stderr, Stdout};

// Why a run stops: the input has ended, or a read or a write failed or a record is cut short.
#[derive(Clone, Copy, Debug, PartialEq, Eq)]
pub enum Stop {
    Ended,
    Failed,
}

// Answers cases, some at a time, until the run stops. No `for`: how many turns are left after one is what `Turns::after`
// promises.
pub fn run<F: FnMut() -> Result<(), Stop>>(output: Stdout, errors: Stderr, mut next: F)
    requires { F.IsAlwaysCallable next }
    ensures { (last : F) × Ran (λ f r g. F.step f r g) 18446744073709551615 next last }
{
    let mut turns = Turns::all();
    while turns.left > 0 {
        turns = turns.after(next(), output, errors);
    }
}
