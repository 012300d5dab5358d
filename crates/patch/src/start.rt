// What the machine starts from: the scale, and row 0 on one axis.
ghost use Rattle.std.specs.Prelude.{◌≡◌, ◌<◌, pos};
ghost use Rattle.drawing.specs.Object.{scale_of};
ghost use Rattle.surface.specs.Surface.{surface_of};
ghost use Rattle.patch.specs.Patch.{patch_of};
ghost use Rattle.patch.specs.Machine.{InLimits, doubled_along};

use crate::Patch;
use surface::Surface;

// N: n × n × n × m × m × m.
pub(crate) fn scale(patch: Patch) -> i64
    requires { InLimits patch }
    ensures { result ≡ pos (scale_of (patch_of patch)) }
{
    scan::number::cubed(patch.n) * scan::number::cubed(patch.m)
}

// Row 0: the points with one j are a column, each four points on from the last.
pub(crate) fn start_surface(patch: Patch, a: usize) -> Surface
    requires in_limits { InLimits patch }
    requires a_bound { a < 3 }
    ensures { result ≡ surface_of (doubled_along patch a) 0 }
{
    rows::start_surface(&patch.points, patch.n, patch.m, 12, 3, a)
}
