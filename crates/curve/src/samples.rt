// The walk through an accepted curve's samples.
ghost use Rattle.std.specs.Prelude.{◌≡◌, ◌+◌, ◌<◌, pos, length, get_or};
ghost use Rattle.decide.specs.Refusal.{accepted};
ghost use Rattle.drawing.specs.Refusals.{draw_verdict, list_verdict};
ghost use Rattle.drawing.specs.Drawing.{drawn, listed};
ghost use Rattle.drawing.specs.NewCells.{unmarked_cells};
ghost use Rattle.cubic.specs.Axis.{start_of};
ghost use Rattle.cubic.specs.Differences.{differences_at};
ghost use Rattle.scan.specs.Walker.{SmallStride, SmallStrides};
ghost use Rattle.curve.specs.Curve.{curve_of};
ghost use Rattle.curve.specs.Machine.{InLimits, doubled_along, start_walker};

use crate::Curve;
use crate::steps::cubic_along;
use cubic::axis::Axis;
use scan::mark::Ink;
use scan::walker::{Strides, Walker};
use scan::xyz::AXES;

// Sample 0 on one axis.
pub fn start_axis(curve: Curve, a: usize, stride: i64) -> Axis
    requires in_limits { InLimits curve }
    requires a_bound { a < 3 }
    requires small_stride { SmallStride stride }
    ensures { result ≡ start_of stride (pos (get_or curve.points a 0)) (differences_at (doubled_along curve a) 0) }
{
    Axis::start(stride, i64::from(curve.points[a]), cubic_along(curve, a))
}

// Sample 0: the cell of point 0.
pub fn start_walker(curve: Curve, h: Strides) -> Walker
    requires in_limits { InLimits curve }
    requires small_strides { SmallStrides h }
    ensures { result ≡ start_walker curve h }
{
    AXES.with(h, |a, stride| start_axis(curve, a, stride))
}

// Marks the cells of an accepted curve's samples, over or under. Answers how many of them were unmarked before.
pub fn mark_samples(side: u32, curve: Curve, grid: &mut [u8]) -> u32
    requires { draw_verdict side (length grid.old) (curve_of curve) ≡ accepted }
    ensures grid_after { result + unmarked_cells grid.new ≡ unmarked_cells grid.old }
    ensures grid_after_2 { grid.new ≡ drawn side (curve_of curve) grid.old }
{
    let h = scan::number::grid_strides(side);
    let start = start_walker(curve, h);
    let scale = scan::number::cubed(curve.steps);
    let ink = Ink {
        mark: curve.mark,
        choice: curve.choice,
    };
    ink.mark_row(start, curve.steps, scale, h, grid)
}

// Lists the cells of an accepted curve's samples.
pub(crate) fn list_samples(side: u32, curve: Curve, list: &mut [u8])
    requires { list_verdict side (length list.old) (curve_of curve) ≡ accepted }
    ensures { list.new ≡ listed side (curve_of curve) list.old }
{
    let h = Strides { x: 1, y: 1, z: 1 };
    let start = start_walker(curve, h);
    let scale = scan::number::cubed(curve.steps);
    scan::list::list_row(start, curve.steps, scale, h, list);
}
