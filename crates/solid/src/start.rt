// What the machine starts from: the scale, and slice 0 on one axis.
ghost use Rattle.std.specs.Prelude.{◌≡◌, [], ◌∷◌, ◌≤◌, ◌<◌, pos};
ghost use Rattle.bezier.specs.Exact.{scale};
ghost use Rattle.surface.specs.Volume.{volume_of};
ghost use Rattle.solid.specs.Machine.{InLimits, doubled_along};

use crate::Solid;
use cubic::differences::Forward;
use rows::start_surface;
use scan::number::cubed;
use surface::volume::Volume;

// N: n × n × n × m × m × m × l × l × l.
pub(crate) fn scale(n: u32, m: u32, l: u32) -> i64
    requires { (n ≤ 32) × (m ≤ 32) × (l ≤ 32) }
    ensures { result ≡ pos (scale (n ∷ m ∷ l ∷ [])) }
{
    cubed(n) * cubed(m) * cubed(l)
}

// Slice 0: the faces through the points with one k, started along v. In a face the points with one j are a column, each sixteen
// points on from the last.
pub(crate) fn start_volume(solid: &Solid, a: usize) -> Volume
    requires in_limits { InLimits solid.now.points solid.now.n solid.now.m solid.now.l }
    requires a_bound { a < 3 }
    ensures { result ≡ volume_of (doubled_along solid.now.points solid.now.n solid.now.m solid.now.l a) 0 }
{
    let f0 = start_surface(&solid.points, solid.n, solid.m, 48, 12, a);
    let f1 = start_surface(&solid.points, solid.n, solid.m, 48, 12, 3 + a);
    let f2 = start_surface(&solid.points, solid.n, solid.m, 48, 12, 6 + a);
    let f3 = start_surface(&solid.points, solid.n, solid.m, 48, 12, 9 + a);
    Volume::start(i64::from(solid.l), f0, f1, f2, f3)
}
