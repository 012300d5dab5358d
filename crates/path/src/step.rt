// One axis's step in two parts: whether the coordinate moves, and the step, which then tells only up from down.
ghost use Rattle.std.specs.Prelude.{◌≡◌};
ghost use Rattle.cubic.specs.Axis.{with_value, step_of};
ghost use Rattle.cubic.specs.Room.{Steps};
ghost use Rattle.path.specs.Step.{moves_next, Moving};

use cubic::axis::Axis;
use cubic::differences::{Cubic, Forward};

// The next sample's remainder lies above N, or at -N or below: one comparison without signs, of its distance from the lowest
// remainder that stays. What lies below that is far above by the difference's wrapping, of which the function of std::num has a
// contract that the proof steps through and the method has none.
pub(crate) fn moves(axis: Axis, scale: i64) -> bool
    requires { Moving scale axis }
    ensures { result ≡ moves_next scale axis }
{
    let next = axis.cubic.next();
    let value = (next.value + ZERO) as usize;
    let lowest = (ZERO + 1 - scale) as usize;
    std::num::wrapping_sub_usize(value, lowest) >= (scale + scale) as usize
}

// Where 0 stands so that every remainder is a number without a sign.
const ZERO: i64 = 1 << 61;

// The next sample.
pub(crate) fn advance(axis: Axis, moved: bool, scale: i64, stride: i64) -> Axis
    requires steps { Steps scale stride axis }
    requires moved_value { moved ≡ moves_next scale axis }
    ensures { result ≡ step_of scale stride axis }
{
    let next = axis.cubic.next();
    if moved {
        let two = scale + scale;
        if next.value > scale {
            return with(axis.at + stride, next.value - two, next);
        }
        return with(axis.at - stride, next.value + two, next);
    }
    with(axis.at, next.value, next)
}

// A position and a remainder beside the differences. (Written in place of each call, the fields that a struct update copies
// are not read back as themselves, and the proof of `advance` stays open.)
fn with(at: i64, value: i64, c: Cubic) -> Axis
    ensures { result ≡ record { at = at; cubic = with_value value c } }
{
    Axis {
        at,
        cubic: Cubic { value, ..c },
    }
}
