// The test of one curve: its steps.
ghost use Rattle.std.specs.Prelude.{◌≡◌, [], ◌∷◌, ◌≤◌, ◌<◌};
ghost use Rattle.decide.specs.Refusal.{◌when◌, first_that};
ghost use Rattle.decide.specs.Verdict.{verdict_of};
ghost use Rattle.drawing.specs.Refusals.{steps_too_long};
ghost use Rattle.gaps.specs.Gaps.{quits};
ghost use Rattle.cubic.specs.Differences.{differences_at};
ghost use Rattle.curve.specs.Curve.{curve_of, tells_quit};
ghost use Rattle.curve.specs.Machine.{InLimits, doubled_along, long_between};

use crate::Curve;
use cubic::differences::{Cubic, Forward};
use decide::Refusal;

/// What the test tells of a curve with no step too long: it walked along all steps, or it quit.
#[derive(Clone, Copy)]
pub enum StepTest {
    Walked,
    Quit,
}

// The test quits where the gaps say that no step is too long, and else it walks. Refused: 15.
pub fn test_steps(curve: Curve) -> Result<StepTest, Refusal>
    requires { InLimits curve }
    ensures refused { verdict_of result ≡ first_that (15 when steps_too_long (curve_of curve) ∷ []) }
    ensures quit { tells_quit result ≡ quits curve.points curve.steps }
{
    if gaps::does_quit(&curve.points, curve.steps) {
        return Ok(StepTest::Quit);
    }
    if step_too_long(curve) {
        return Err(Refusal::LongStep);
    }
    Ok(StepTest::Walked)
}

// Sample 0 along one axis, by its number, since the search below goes over a range of them: coordinate a of each point.
pub(crate) fn cubic_along(curve: Curve, a: usize) -> Cubic
    requires in_limits { InLimits curve }
    requires a_bound { a < 3 }
    ensures { result ≡ differences_at (doubled_along curve a) 0 }
{
    scan::number::start_column(&curve.points, curve.steps, 3, a)
}

// Some two neighbouring samples lie more than one cell apart on some axis.
fn step_too_long(curve: Curve) -> bool
    requires { InLimits curve }
    ensures { result ≡ steps_too_long (curve_of curve) }
{
    long_between(curve, 0, 3)
}

// The same on an axis from one number up to another, that one not included. The search is left at the first such step, and
// forms no difference past the last. Its form is one that document 01 names: nested loops, left from inside by a label.
pub fn long_between(curve: Curve, from: usize, to: usize) -> bool
    requires in_limits { InLimits curve }
    requires from_le_to { (from ≤ to) × (to ≤ 3) }
    ensures { result ≡ long_between curve from to }
{
    let scale = scan::number::cubed(curve.steps);
    let last = curve.steps - 1;
    let mut found = false;
    'search: for a in from..to {
        let mut c = cubic_along(curve, a);
        let mut i = 0;
        loop {
            if cubic::long::is_long(scale, c.d1) {
                found = true;
                break 'search;
            }
            if i == last {
                break;
            }
            c = c.next();
            i += 1;
        }
    }
    found
}
