// One axis of a volume over three parameters, t, u and v, by its differences. A slice is the surface at one index of v, and
// the first differences along v are a volume again.
ghost use Rattle.std.specs.Prelude.{◌≡◌};
ghost use Rattle.surface.specs.Volume.{VolumeSearchable, long_volume_steps};

use crate::Surface;
use cubic::differences::{Differences, Forward};

// Surfaces over u and v: of the value at t = 0, and of its three differences along t. They hold sixteen cubics along v. Its
// slice is a surface over t and u. It starts at slice 0 of the blend of four faces, which are surfaces over t and u, and
// its next is the next slice.
pub type Volume = Differences<Surface>;

// Some first difference is beyond 2N, along t or along u in some slice, or along v between two slices, of a volume with n, m
// and l steps along t, u and v. The search is left at the first such difference, and forms no slice past the last.
pub fn step_too_long(volume: Volume, scale: i64, n: u32, m: u32, l: u32) -> bool
    requires { VolumeSearchable volume scale n m l }
    ensures { result ≡ long_volume_steps volume scale n m l }
{
    let mut rest = volume;
    let mut k = 0;
    'search: loop {
        if crate::step_too_long(rest.slice(), scale, n, m) {
            break 'search true;
        }
        if k == l {
            break false;
        }
        if crate::some_long(rest.steps().slice(), scale, m + 1, n + 1) {
            break 'search true;
        }
        rest = rest.next();
        k += 1;
    }
}
