// Rows of samples, what a patch and a slice of a solid share: their start on one axis, the walk from row to row, and the
// marking of their cells. No function is open to callers: what is `pub` is so for the crates above.
#![tactic(auto)]

pub mod record;

ghost use Rattle.std.specs.Prelude.{◌≡◌, map, ◌+◌, ◌≤◌, length};
ghost use Rattle.drawing.specs.Drawing.{marked};
ghost use Rattle.drawing.specs.NewCells.{unmarked_cells};
ghost use Rattle.cubic.specs.Room.{Placed};
ghost use Rattle.surface.specs.Surface.{surface_of};
ghost use Rattle.scan.specs.Walker.{place_of};
ghost use Rattle.rows.specs.Lines.{start_line, LineRoom, LinesRoom, next_line, next_lines, row_line, row_walker};
ghost use Rattle.rows.specs.Lines.{rows_of_walkers, RowsOnGrid};
ghost use Rattle.rows.specs.Face.{InFace, doubled_face};

use cubic::axis::Axis;
use cubic::differences::{Cubic, Forward};
use scan::mark::Ink;
use scan::number::start_column;
use scan::walker::{Strides, Walker};
use scan::xyz::Xyz;
use surface::Surface;

// One axis: the walk along u through t = 0, whose remainder is carried into each row, beside cubics along u of the
// differences along t.
#[derive(Clone, Copy)]
pub struct Line {
    pub walk: Axis,
    pub d1: Cubic,
    pub d2: Cubic,
    pub d3: Cubic,
}

pub type Lines = Xyz<Line>;

impl Line {
    // Row 0 of a surface: the walk along u starts in the cell of point 0.
    pub fn start(stride: i64, point: i64, s: Surface) -> Line
        requires { Placed stride point }
        ensures { result ≡ start_line stride point s }
    {
        Line {
            walk: Axis::start(stride, point, s.value),
            d1: s.d1,
            d2: s.d2,
            d3: s.d3,
        }
    }

    // The row that starts where the walk along u stands.
    pub fn row(self) -> Axis
        ensures { result ≡ row_line self }
    {
        self.walk.row(self.d1, self.d2, self.d3)
    }

    // The next row.
    pub fn next(self, scale: i64, stride: i64) -> Line
        requires { LineRoom scale stride self }
        ensures { result ≡ next_line scale stride self }
    {
        Line {
            walk: self.walk.step(scale, stride),
            d1: self.d1.next(),
            d2: self.d2.next(),
            d3: self.d3.next(),
        }
    }
}

// The row's walker at its first sample.
fn row_walker(lines: Lines) -> Walker
    ensures { result ≡ row_walker lines }
{
    lines.map(|line| line.row())
}

// The next row.
fn next_lines(lines: Lines, scale: i64, h: Strides) -> Lines
    requires { LinesRoom scale h lines }
    ensures { result ≡ next_lines scale h lines }
{
    lines.with(h, |line, stride| line.next(scale, stride))
}

// Row 0 of the surface through sixteen coordinates: the columns at byte at and at three more bytes, each across bytes on, where
// each coordinate of a column is apart bytes on. The columns start along t, with n steps, and then along u, with m.
pub fn start_surface(
    points: &[u8],
    n: u32,
    m: u32,
    apart: usize,
    across: usize,
    at: usize,
) -> Surface
    requires { InFace points.now n m apart across at }
    ensures { result ≡ surface_of (doubled_face points.now n m apart across at) 0 }
{
    let c0 = start_column(points, n, apart, at);
    let c1 = start_column(points, n, apart, across + at);
    let c2 = start_column(points, n, apart, 2 * across + at);
    let c3 = start_column(points, n, apart, 3 * across + at);
    Surface::start(i64::from(m), c0, c1, c2, c3)
}

// Marks the cells of the rows 0 to m: of each row the walker's, and that of each of n steps. Answers how many of them were
// unmarked before. Scale and strides stay two parameters, as the contracts name each.
pub fn mark_rows(
    ink: Ink,
    start: Lines,
    n: u32,
    m: u32,
    scale: i64,
    h: Strides,
    grid: &mut [u8],
) -> u32
    requires rows_on_grid { RowsOnGrid n m scale h start (length grid.old) }
    requires n_bound { (n ≤ 512) × (length grid.old ≤ 262144) }
    requires le_mark { 1 ≤ ink.mark }
    ensures grid_after { result + unmarked_cells grid.new ≡ unmarked_cells grid.old }
    ensures grid_after_2 { grid.new ≡
        marked ink.choice ink.mark (map place_of (rows_of_walkers n m scale h start)) grid.old }
{
    let mut lines = start;
    let mut new_cells = ink.mark_row(row_walker(lines), n, scale, h, grid);
    for _ in 0..m {
        lines = next_lines(lines, scale, h);
        new_cells += ink.mark_row(row_walker(lines), n, scale, h, grid);
    }
    new_cells
}
