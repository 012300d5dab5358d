// The flips of curve and patch records. Open to callers: `flip_curve` and `flip_patch`. Whatever else is `pub` is so for the
// crates above.
#![tactic(auto)]

ghost use Rattle.std.specs.Prelude.{◌≡◌, false, ◌*◌, length};
ghost use Rattle.decide.specs.Some.{some_of};
ghost use Rattle.flip.specs.Flip.{no_point, points_at, reversed, exchanged, flipped_curve, flipped_patch};

use curve::Curve;
use patch::Patch;

// The curve with its four points in reverse order; steps, mark and choice as they are.
pub fn flip_curve(curve: Curve) -> Curve
    ensures { result ≡ flipped_curve curve }
{
    let mut points = [0; 12];
    reverse(&curve.points, &mut points);
    Curve { points, ..curve }
}

// The patch with i and j exchanged, and n and m exchanged; mark and choice as they are.
pub fn flip_patch(patch: Patch) -> Patch
    ensures { result ≡ flipped_patch patch }
{
    let mut points = [0; 48];
    exchange(&patch.points, &mut points);
    Patch {
        points,
        n: patch.m,
        m: patch.n,
        ..patch
    }
}

// Writes a curve's four points in reverse order.
pub fn reverse(points: &[u8; 12], to: &mut [u8])
    requires { length to.old ≡ 12 }
    ensures { to.new ≡ reversed points.now }
{
    put_points(points, &[3, 2, 1, 0], to);
}

// Writes a patch's sixteen points with i and j exchanged.
pub fn exchange(points: &[u8; 48], to: &mut [u8])
    requires { length to.old ≡ 48 }
    ensures { to.new ≡ exchanged points.now }
{
    let numbers = [0, 4, 8, 12, 1, 5, 9, 13, 2, 6, 10, 14, 3, 7, 11, 15];
    put_points(points, &numbers, to);
}

// Writes the points with these numbers, in turn, x y z of each, straight into what is lent. By places, since of what goes through
// `chunks_exact_mut` a proof knows the length alone, and byte by byte, since `copy_from_slice` of three bytes is compiled to a test
// whether the two overlap, and a copy for either case.
fn put_points(points: &[u8], numbers: &[u8], to: &mut [u8])
    requires to_len { length to.old ≡ 3 * length numbers.now }
    requires numbers_value { some_of (no_point points.now) numbers.now ≡ false }
    ensures { to.new ≡ points_at points.now numbers.now }
{
    for (k, &number) in numbers.iter().enumerate() {
        let at = 3 * usize::from(number);
        let x = points[at];
        let y = points[at + 1];
        let z = points[at + 2];
        to[3 * k] = x;
        to[3 * k + 1] = y;
        to[3 * k + 2] = z;
    }
}
