// From the numbers of a record to those of the machine.
ghost use Rattle.std.specs.Prelude.{◌≡◌, ◌*◌, ◌≤◌, pos};
ghost use Rattle.cubic.specs.Differences.{differences_at};
ghost use Rattle.scan.specs.Column.{InColumn, doubled_column, AtBytes, doubled_through};
ghost use Rattle.scan.specs.Walker.{grid_strides};

use crate::walker::Strides;
use cubic::differences::{Cubic, Forward};

// Twice a coordinate: the machine works on twice the value.
pub fn doubled(c: u8) -> i64
    ensures { result ≡ pos (2 * c) }
{
    2 * i64::from(c)
}

// Sample 0 of the cubic along the first parameter through the coordinates at four bytes of the points: its doubled value and
// differences.
pub fn start_through(points: &[u8], n: u32, b0: usize, b1: usize, b2: usize, b3: usize) -> Cubic
    requires { AtBytes points.now n b0 b1 b2 b3 }
    ensures { result ≡ differences_at (doubled_through points.now n b0 b1 b2 b3) 0 }
{
    Cubic::start(
        i64::from(n),
        doubled(points[b0]),
        doubled(points[b1]),
        doubled(points[b2]),
        doubled(points[b3]),
    )
}

// The same where the first coordinate is at byte at and each next one apart bytes on.
pub fn start_column(points: &[u8], n: u32, apart: usize, at: usize) -> Cubic
    requires { InColumn points.now n apart at }
    ensures { result ≡ differences_at (doubled_column points.now n apart at) 0 }
{
    start_through(points, n, at, apart + at, 2 * apart + at, 3 * apart + at)
}

// What a step count gives to the scale: n × n × n.
pub fn cubed(n: u32) -> i64
    requires { n ≤ 512 }
    ensures { result ≡ pos (n * n * n) }
{
    i64::from(n * n * n)
}

// The strides of a grid: 1, S and S × S.
pub fn grid_strides(side: u32) -> Strides
    requires { side ≤ 64 }
    ensures { result ≡ grid_strides side }
{
    Strides {
        x: 1,
        y: i64::from(side),
        z: i64::from(side * side),
    }
}
