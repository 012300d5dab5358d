// Patches: checked and drawn by Kaufman's FAST_SURFACE. Open to callers: `check_patch` and `draw_patch`, the only functions
// that are `pub`.
#![tactic(auto)]

mod samples;
mod start;

ghost use Rattle.std.specs.Prelude.{◌≡◌};
ghost use Rattle.decide.specs.Verdict.{verdict_of};
ghost use Rattle.drawing.specs.Refusals.{check_verdict};
ghost use Rattle.drawing.specs.Drawing.{drawing_of};
ghost use Rattle.scan.specs.Answer.{Draws};
ghost use Rattle.patch.specs.Patch.{patch_of};

use decide::Refusal;
use drawing::Choice;
use rows::record;
use rows::record::Record;
use scan::answer::Drawn;
use scan::refusal::is_count_out;

// A patch record: x, y, z of points 0 to 15, the step counts n along t and m along u, the mark and the choice, over or
// under.
#[derive(Clone, Copy)]
pub struct Patch {
    pub points: [u8; 48],
    pub n: u32,
    pub m: u32,
    pub mark: u8,
    pub choice: Choice,
}

// Whether the patch can be drawn in a cube of the given side. Refused: 11, 13, 14, 15.
pub fn check_patch(side: u32, patch: Patch) -> Result<(), Refusal>
    ensures { verdict_of result ≡ check_verdict side (patch_of patch) }
{
    record::check(side, &patch)
}

// Writes the mark, over or under, in each sample's cell of the grid. Refused: 11, 21, 12, 13, 14, 15.
pub fn draw_patch(side: u32, patch: Patch, grid: &mut [u8]) -> Result<Drawn, Refusal>
    ensures { Draws (drawing_of side (patch_of patch)) grid.old grid.new result }
{
    record::draw(side, &patch, grid)
}

impl Record for Patch {
    ghost object = { patch_of };

    fn points(&self) -> &[u8] {
        &self.points
    }

    fn mark(&self) -> u8 {
        self.mark
    }

    fn is_count_out(&self) -> bool {
        is_count_out(256, self.n) || is_count_out(256, self.m)
    }

    fn step_too_long_along(&self, a: usize) -> bool {
        let scale = start::scale(*self);
        surface::step_too_long(start::start_surface(*self, a), scale, self.n, self.m)
    }

    fn mark_samples(&self, side: u32, grid: &mut [u8]) -> Drawn {
        let new_cells = samples::mark_samples(side, *self, grid);
        let answer = (self.n + 1) * (self.m + 1);
        Drawn { answer, new_cells }
    }
}
