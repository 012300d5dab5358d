// Curves: checked, listed and drawn by Kaufman's FAST_CURVE. Open to callers: `check_curve`, `list_curve` and
// `draw_curve`. Whatever else is `pub` is so for the crates above.
#![tactic(auto)]

pub mod samples;
pub mod steps;

ghost use Rattle.std.specs.Prelude.{◌≡◌, false};
ghost use Rattle.decide.specs.Refusal.{first_that, outcome};
ghost use Rattle.decide.specs.Verdict.{verdict_of};
ghost use Rattle.drawing.specs.Refusals.{count_out, check_verdict};
ghost use Rattle.drawing.specs.Drawing.{drawing_of, listing_of};
ghost use Rattle.gaps.specs.Gaps.{quits};
ghost use Rattle.scan.specs.Refusals.{before_steps};
ghost use Rattle.scan.specs.Answer.{Draws, Lists};
ghost use Rattle.curve.specs.Curve.{curve_of, check_answer_of};

use decide::Refusal;
use drawing::Choice;
use scan::answer::Drawn;
use steps::StepTest;

// A curve record: the mark and the choice, over or under, the step count, and x, y, z of points 0 to 3. The points stand
// last: so the compiled test of the coordinates has no load that spans two of the stores that made the record.
#[derive(Clone, Copy)]
pub struct Curve {
    pub mark: u8,
    pub choice: Choice,
    pub steps: u32,
    pub points: [u8; 12],
}

// Whether the curve can be drawn in a cube of the given side, and if so whether the step test quit. Refused: 11, 13, 14,
// 15.
pub fn check_curve(side: u32, curve: Curve) -> Result<StepTest, Refusal>
    ensures { check_answer_of result ≡ outcome (check_verdict side (curve_of curve)) (quits curve.points curve.steps) }
{
    before_test(side, curve, false, false, false)?;
    steps::test_steps(curve)
}

// Writes x y z of each sample's cell from the front of the list. Refused: 11, 13, 22, 14, 15.
pub fn list_curve(side: u32, curve: Curve, list: &mut [u8]) -> Result<u32, Refusal>
    ensures { Lists (listing_of side (curve_of curve)) list.old list.new result }
{
    let count = curve.steps as usize + 1;
    before_test(side, curve, false, false, list.len() < 3 * count)?;
    steps::test_steps(curve)?;
    samples::list_samples(side, curve, list);
    Ok(curve.steps + 1)
}

// Writes the mark, over or under, in each sample's cell of the grid. Refused: 11, 21, 12, 13, 14, 15.
pub fn draw_curve(side: u32, curve: Curve, grid: &mut [u8]) -> Result<Drawn, Refusal>
    ensures { Draws (drawing_of side (curve_of curve)) grid.old grid.new result }
{
    let cube = scan::refusal::is_volume(side, grid.len());
    before_test(side, curve, !cube, curve.mark == 0, false)?;
    steps::test_steps(curve)?;
    let new_cells = samples::mark_samples(side, curve, grid);
    let answer = curve.steps + 1; // samples 0 to n
    Ok(Drawn { answer, new_cells })
}

// The first number that applies before the step test, with what grid, mark and list have to say.
pub fn before_test(
    side: u32,
    curve: Curve,
    grid_wrong: bool,
    mark_wrong: bool,
    list_short: bool,
) -> Result<(), Refusal>
    ensures { verdict_of result ≡ first_that
        (before_steps side curve.points grid_wrong mark_wrong (count_out 512 curve.steps) list_short) }
{
    let count_out = scan::refusal::is_count_out(512, curve.steps);
    scan::refusal::before_steps(
        side,
        &curve.points,
        grid_wrong,
        mark_wrong,
        count_out,
        list_short,
    )
}
