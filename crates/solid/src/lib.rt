// Solids, the tricubic volumes of document 02's A.13: checked and drawn slice by slice. Open to callers: `check_solid` and
// `draw_solid`, the only functions that are `pub`.
#![tactic(auto)]

mod slices;
mod start;

ghost use Rattle.std.specs.Prelude.{◌≡◌};
ghost use Rattle.decide.specs.Verdict.{verdict_of};
ghost use Rattle.drawing.specs.Refusals.{check_verdict};
ghost use Rattle.drawing.specs.Drawing.{drawing_of};
ghost use Rattle.scan.specs.Answer.{Draws};
ghost use Rattle.solid.specs.Solid.{solid_of};

use decide::Refusal;
use drawing::Choice;
use rows::record;
use rows::record::Record;
use scan::answer::Drawn;
use scan::refusal::is_count_out;

// A solid record: x, y, z of points 0 to 63, the step counts n along t, m along u and l along v, the mark and the choice, over
// or under.
#[derive(Clone, Copy)]
pub struct Solid {
    pub points: [u8; 192],
    pub n: u32,
    pub m: u32,
    pub l: u32,
    pub mark: u8,
    pub choice: Choice,
}

// Whether the solid can be drawn in a cube of the given side. Refused: 11, 13, 14, 15.
pub fn check_solid(side: u32, solid: Solid) -> Result<(), Refusal>
    ensures { verdict_of result ≡ check_verdict side (solid_of solid) }
{
    record::check(side, &solid)
}

// Writes the mark, over or under, in each sample's cell of the grid. Refused: 11, 21, 12, 13, 14, 15.
pub fn draw_solid(side: u32, solid: Solid, grid: &mut [u8]) -> Result<Drawn, Refusal>
    ensures { Draws (drawing_of side (solid_of solid)) grid.old grid.new result }
{
    record::draw(side, &solid, grid)
}

impl Record for Solid {
    ghost object = { solid_of };

    fn points(&self) -> &[u8] {
        &self.points
    }

    fn mark(&self) -> u8 {
        self.mark
    }

    fn is_count_out(&self) -> bool {
        is_count_out(32, self.n) || is_count_out(32, self.m) || is_count_out(32, self.l)
    }

    fn step_too_long_along(&self, a: usize) -> bool {
        let scale = start::scale(self.n, self.m, self.l);
        surface::volume::step_too_long(start::start_volume(self, a), scale, self.n, self.m, self.l)
    }

    fn mark_samples(&self, side: u32, grid: &mut [u8]) -> Drawn {
        let new_cells = slices::mark_slices(side, *self, grid);
        let answer = (self.n + 1) * (self.m + 1) * (self.l + 1);
        Drawn { answer, new_cells }
    }
}
