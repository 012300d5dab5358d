// The long-step test on differences.
ghost use Rattle.std.specs.Prelude.{◌≡◌, ◌^◌};
ghost use Rattle.integers.specs.Magnitude.{Within};
ghost use Rattle.cubic.specs.Axis.{long_of};

// Two neighbouring samples, whose doubled values differ by d1, lie more than one cell apart: |d1| > 2N. (Not by `abs`, which
// the least i64 has not; d1 may be any.)
pub fn is_long(scale: i64, d1: i64) -> bool
    requires { Within (2 ^ 60) scale }
    ensures { result ≡ long_of scale d1 }
{
    let two = scale + scale;
    d1 > two || d1 < -two
}
