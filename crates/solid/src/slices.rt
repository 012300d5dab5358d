// The walk through an accepted solid's slices.
ghost use Rattle.std.specs.Prelude.{◌≡◌, ◌+◌, ◌<◌, pos, length, get_or};
ghost use Rattle.decide.specs.Refusal.{accepted};
ghost use Rattle.drawing.specs.Refusals.{draw_verdict};
ghost use Rattle.drawing.specs.Drawing.{drawn};
ghost use Rattle.drawing.specs.NewCells.{unmarked_cells};
ghost use Rattle.surface.specs.Volume.{volume_of};
ghost use Rattle.scan.specs.Walker.{SmallStride, SmallStrides};
ghost use Rattle.solid.specs.Solid.{solid_of};
ghost use Rattle.solid.specs.Blocks.{start_block, BlockRoom, BlocksRoom, next_block, next_blocks};
ghost use Rattle.solid.specs.Blocks.{slice_line, slice_lines};
ghost use Rattle.solid.specs.Machine.{InLimits, doubled_along, start_blocks};

use crate::Solid;
use crate::start::{scale, start_volume};
use cubic::differences::Forward;
use rows::{Line, Lines, mark_rows};
use scan::mark::Ink;
use scan::walker::Strides;
use scan::xyz::{AXES, Xyz};
use surface::Surface;

// One axis: the walk along v through t = u = 0, whose remainder is carried into each slice, with cubics along v of the
// differences along u beside it; and surfaces over u and v of the differences along t.
#[derive(Clone, Copy)]
pub(crate) struct Block {
    pub value: Line,
    pub d1: Surface,
    pub d2: Surface,
    pub d3: Surface,
}

pub(crate) type Blocks = Xyz<Block>;

// Slice 0 on one axis: the cell of point 0.
fn start_block(solid: &Solid, a: usize, stride: i64) -> Block
    requires in_limits { InLimits solid.now.points solid.now.n solid.now.m solid.now.l }
    requires a_bound { a < 3 }
    requires small_stride { SmallStride stride }
    ensures { result ≡ start_block stride (pos (get_or solid.now.points a 0))
        (volume_of (doubled_along solid.now.points solid.now.n solid.now.m solid.now.l a) 0) }
{
    let v = start_volume(solid, a);
    Block {
        value: Line::start(stride, i64::from(solid.points[a]), v.value),
        d1: v.d1,
        d2: v.d2,
        d3: v.d3,
    }
}

// Slice 0.
fn start_blocks(solid: &Solid, h: Strides) -> Blocks
    requires in_limits { InLimits solid.now.points solid.now.n solid.now.m solid.now.l }
    requires small_strides { SmallStrides h }
    ensures { result ≡ start_blocks solid.now.points solid.now.n solid.now.m solid.now.l h }
{
    AXES.with(h, |a, stride| start_block(solid, a, stride))
}

impl Block {
    // The slice's row 0, which starts where the walk along v stands.
    fn slice(self) -> Line
        ensures { result ≡ slice_line self }
    {
        Line {
            walk: self.value.row(),
            d1: self.d1.slice(),
            d2: self.d2.slice(),
            d3: self.d3.slice(),
        }
    }

    // The next slice.
    fn next(self, scale: i64, stride: i64) -> Block
        requires { BlockRoom scale stride self }
        ensures { result ≡ next_block scale stride self }
    {
        Block {
            value: self.value.next(scale, stride),
            d1: self.d1.next(),
            d2: self.d2.next(),
            d3: self.d3.next(),
        }
    }
}

// The slice's row 0.
fn slice_lines(blocks: Blocks) -> Lines
    ensures { result ≡ slice_lines blocks }
{
    blocks.map(|block| block.slice())
}

// The next slice.
fn next_blocks(blocks: Blocks, scale: i64, h: Strides) -> Blocks
    requires { BlocksRoom scale h blocks }
    ensures { result ≡ next_blocks scale h blocks }
{
    blocks.with(h, |block, stride| block.next(scale, stride))
}

// Marks the cells of an accepted solid's samples, over or under, slice by slice. Answers how many of them were unmarked before.
pub(crate) fn mark_slices(side: u32, solid: Solid, grid: &mut [u8]) -> u32
    requires { draw_verdict side (length grid.old) (solid_of solid) ≡ accepted }
    ensures grid_after { result + unmarked_cells grid.new ≡ unmarked_cells grid.old }
    ensures grid_after_2 { grid.new ≡ drawn side (solid_of solid) grid.old }
{
    let h = scan::number::grid_strides(side);
    let scale = scale(solid.n, solid.m, solid.l);
    let ink = Ink {
        mark: solid.mark,
        choice: solid.choice,
    };
    let mut blocks = start_blocks(&solid, h);
    let mut new_cells = mark_rows(ink, slice_lines(blocks), solid.n, solid.m, scale, h, grid);
    for _ in 0..solid.l {
        blocks = next_blocks(blocks, scale, h);
        new_cells += mark_rows(ink, slice_lines(blocks), solid.n, solid.m, scale, h, grid);
    }
    new_cells
}
