// The walk through an accepted patch's samples.
ghost use Rattle.std.specs.Prelude.{◌≡◌, ◌+◌, ◌<◌, pos, length, get_or};
ghost use Rattle.decide.specs.Refusal.{accepted};
ghost use Rattle.drawing.specs.Refusals.{draw_verdict};
ghost use Rattle.drawing.specs.Drawing.{drawn};
ghost use Rattle.drawing.specs.NewCells.{unmarked_cells};
ghost use Rattle.surface.specs.Surface.{surface_of};
ghost use Rattle.scan.specs.Walker.{SmallStride, SmallStrides};
ghost use Rattle.rows.specs.Lines.{start_line};
ghost use Rattle.patch.specs.Patch.{patch_of};
ghost use Rattle.patch.specs.Machine.{InLimits, doubled_along, start_lines};

use crate::Patch;
use crate::start::start_surface;
use rows::{Line, Lines};
use scan::mark::Ink;
use scan::walker::Strides;
use scan::xyz::AXES;

// Row 0 on one axis: the cell of point 0.
fn start_line(patch: Patch, a: usize, stride: i64) -> Line
    requires in_limits { InLimits patch }
    requires a_bound { a < 3 }
    requires small_stride { SmallStride stride }
    ensures { result ≡ start_line stride (pos (get_or patch.points a 0)) (surface_of (doubled_along patch a) 0) }
{
    Line::start(stride, i64::from(patch.points[a]), start_surface(patch, a))
}

// Row 0.
fn start_lines(patch: Patch, h: Strides) -> Lines
    requires in_limits { InLimits patch }
    requires small_strides { SmallStrides h }
    ensures { result ≡ start_lines patch h }
{
    AXES.with(h, |a, stride| start_line(patch, a, stride))
}

// Marks the cells of an accepted patch's samples, over or under, row by row. Answers how many of them were unmarked before.
pub(crate) fn mark_samples(side: u32, patch: Patch, grid: &mut [u8]) -> u32
    requires { draw_verdict side (length grid.old) (patch_of patch) ≡ accepted }
    ensures grid_after { result + unmarked_cells grid.new ≡ unmarked_cells grid.old }
    ensures grid_after_2 { grid.new ≡ drawn side (patch_of patch) grid.old }
{
    let h = scan::number::grid_strides(side);
    let scale = crate::start::scale(patch);
    let lines = start_lines(patch, h);
    let ink = Ink {
        mark: patch.mark,
        choice: patch.choice,
    };
    rows::mark_rows(ink, lines, patch.n, patch.m, scale, h, grid)
}
