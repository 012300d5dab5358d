// The search for the smallest count that the curve rule accepts. Acceptance is not monotone, so it goes up, count by count.
// What is skipped a law refuses: counts below the distance from the first point to the last.
ghost use Rattle.std.specs.Prelude.{◌≡◌, ◌-◌, ◌≤◌, ◌<◌};
ghost use Rattle.drawing.specs.Axis.{axis_of};
ghost use Rattle.curve.specs.Machine.{InLimits, long_at, long_along};
ghost use Rattle.chosen.specs.Chosen.{chosen};
ghost use Rattle.chosen.specs.Search.{InCube, with_steps, alone_of, enough, Climbed, next_axis};

use curve::Curve;
use drawing::Axis;

// The smallest count. The axes are asked in turn: each climbs from the count that the one before it came to, and a count at
// which all three stay is accepted. An axis that refuses a count is so the first to be asked of the next. A loop: no sequence is
// gone through, and it ends by what the counts come to.
pub(crate) fn smallest(curve: Curve) -> u32
    requires { InCube curve }
    ensures { result ≡ chosen curve.points }
{
    let most = gaps::three_gaps(&curve.points).max(1);
    let mut n = gaps::ends_apart(&curve.points).max(1);
    let mut axis = Axis::X;
    let mut agreed = 0u32;
    loop {
        let m = climb(curve, axis, n, most);
        agreed = if m == n { agreed + 1 } else { 1 };
        if agreed == 3 {
            return m;
        }
        n = m;
        axis = next_axis(axis);
    }
}

// The first count from `from` on that one axis accepts. `most` is accepted unexamined. As `find` over the range, the search
// took 620 ns for 564, each at the best of four places.
fn climb(curve: Curve, axis: Axis, from: u32, most: u32) -> u32
    requires in_cube { InCube curve }
    requires le_from { (1 ≤ from) × (from ≤ most) × (most ≡ enough curve.points) }
    ensures { Climbed curve (axis_of axis) from result }
{
    let line = alone(curve, axis);
    let mut n = from;
    while n < most && is_refused(with_steps(line, n)) {
        n += 1;
    }
    n
}

// The x axis refuses the curve's own count: its last step is too long, or a walk from the first finds one that is.
fn is_refused(curve: Curve) -> bool
    requires { InLimits curve }
    ensures { result ≡ long_along curve 0 }
{
    is_last_long(curve) || curve::steps::long_between(curve, 0, 1)
}

// The last step is too long on the x axis. It is the first of the points in reverse order.
fn is_last_long(curve: Curve) -> bool
    requires { InLimits curve }
    ensures { result ≡ long_at curve 0 (curve.steps - 1) }
{
    let back = scan::number::start_through(&curve.points, curve.steps, 9, 6, 3, 0);
    cubic::long::is_long(scan::number::cubed(curve.steps), back.d1)
}

// The curve of one axis alone: its coordinates stand on x, and the others are 0.
fn alone(curve: Curve, axis: Axis) -> Curve
    ensures { result ≡ alone_of curve (axis_of axis) }
{
    let p = &curve.points;
    let a = axis.offset();
    let points = [p[a], 0, 0, p[3 + a], 0, 0, p[6 + a], 0, 0, p[9 + a], 0, 0];
    Curve { points, ..curve }
}

// The axis after this one, x after z.
fn next_axis(axis: Axis) -> Axis
    ensures { axis_of result ≡ next_axis (axis_of axis) }
{
    match axis {
        Axis::X => Axis::Y,
        Axis::Y => Axis::Z,
        Axis::Z => Axis::X,
    }
}

// The same curve with another count.
pub(crate) fn with_steps(curve: Curve, n: u32) -> Curve
    ensures { result ≡ with_steps curve n }
{
    Curve { steps: n, ..curve }
}
