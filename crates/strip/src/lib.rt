// The preview strip: curves and patches in a cube of side 2 to 17 with at most 64 steps along each parameter, drawn by the main
// path. Open to callers: `draw_strip_curve` and `draw_strip_patch`. Whatever else is `pub` is so for the crates above.
#![tactic(auto)]

ghost use Rattle.std.specs.Prelude.{◌≡◌, ◌||◌};
ghost use Rattle.decide.specs.Some.{some_of};
ghost use Rattle.decide.specs.Verdict.{verdict_of};
ghost use Rattle.drawing.specs.Object.{curve, patch};
ghost use Rattle.drawing.specs.Refusals.{count_out};
ghost use Rattle.scan.specs.Answer.{Draws};
ghost use Rattle.curve.specs.Curve.{curve_of};
ghost use Rattle.patch.specs.Patch.{patch_of};
ghost use Rattle.strip.specs.Strip.{side_above, count_above, strip_drawing, JudgesAll, JudgesCounts};

use curve::Curve;
use decide::Refusal;
use patch::Patch;
use scan::answer::Drawn;
use scan::refusal::is_count_out;

// Writes the mark, over or under, in each sample's cell of the grid. Refused: 11, 23, 21, 12, 13, 24, 14, 15.
pub fn draw_strip_curve(side: u32, curve: Curve, grid: &mut [u8]) -> Result<Drawn, Refusal>
    ensures { Draws (strip_drawing side (curve_of curve)) grid.old grid.new result }
{
    judge_curve(side, curve.steps, curve.mark, grid.len())?;
    curve::draw_curve(side, curve, grid)
}

// The same of a patch. One function of both would have the judge and the drawing as parameters, and be no shorter.
pub fn draw_strip_patch(side: u32, patch: Patch, grid: &mut [u8]) -> Result<Drawn, Refusal>
    ensures { Draws (strip_drawing side (patch_of patch)) grid.old grid.new result }
{
    judge_patch(side, patch.n, patch.m, patch.mark, grid.len())?;
    patch::draw_patch(side, patch, grid)
}

// What the strip itself says of a curve, by its step count, its mark and the grid's length: it takes it, and the main path is
// to judge, or it refuses it with a number up to 24.
pub fn judge_curve(side: u32, n: u32, mark: u8, bytes: usize) -> Result<(), Refusal>
    ensures { JudgesAll side bytes (λ points choice. curve n points mark choice) (verdict_of result) }
{
    judge(side, 512, &[n], mark, bytes)
}

// The same of a patch.
pub fn judge_patch(side: u32, n: u32, m: u32, mark: u8, bytes: usize) -> Result<(), Refusal>
    ensures { JudgesAll side bytes (λ points choice. patch n m points mark choice) (verdict_of result) }
{
    judge(side, 256, &[n, m], mark, bytes)
}

// The same by step counts of which 13 lets up to most pass.
fn judge(side: u32, most: u32, counts: &[u32], mark: u8, bytes: usize) -> Result<(), Refusal>
    ensures { JudgesCounts side bytes most counts.now mark (verdict_of result) }
{
    if !is_above(side, counts) {
        return Ok(());
    }
    if side < 2 || 64 < side {
        return Err(Refusal::Side);
    }
    if 17 < side {
        return Err(Refusal::StripSide);
    }
    if !scan::refusal::is_volume(side, bytes) {
        return Err(Refusal::Length);
    }
    if mark == 0 {
        return Err(Refusal::Mark);
    }
    if some_out(most, counts) {
        return Err(Refusal::Steps);
    }
    Err(Refusal::StripSteps)
}

// The side or a step count is above the strip's.
fn is_above(side: u32, counts: &[u32]) -> bool
    ensures { result ≡ (side_above side || some_of count_above counts.now) }
{
    17 < side || counts.iter().any(|&n| 64 < n)
}

// A step count is outside its range.
fn some_out(most: u32, counts: &[u32]) -> bool
    ensures { result ≡ some_of (count_out most) counts.now }
{
    counts.iter().any(|&n| is_count_out(most, n))
}
