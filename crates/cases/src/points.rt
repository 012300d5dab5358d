// The points of a case.
ghost use Rattle.std.specs.Prelude.{◌+◌, ◌*◌, ◌/◌, ◌≤◌, length};

use crate::record::number;

// Reads N coordinates, x y z of one point after the other. Each point is one number, 00xxyyzz in hexadecimal digits, and
// they begin at the number first.
pub fn points<const N: usize>(case: &[u8], first: usize) -> [u8; N]
    requires { 9 * (first + (N + 2) / 3) ≤ length case.now }
{
    let mut points = [0; N];
    for i in 0..N {
        points[i] = number(case, first + i / 3).to_be_bytes()[1 + i % 3];
    }
    points
}
