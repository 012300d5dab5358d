// Face-to-face curves, 6-connected paths through the samples' cells: drawn and listed by Kaufman's FAST_CURVE, with a write
// after each axis's move. Open to callers: `draw_path` and `list_path`.
#![tactic(auto)]

mod list;
mod mark;
mod step;

ghost use Rattle.scan.specs.Answer.{Draws, Lists};
ghost use Rattle.curve.specs.Curve.{curve_of};
ghost use Rattle.path.specs.Path.{path_drawing, path_listing};

use curve::Curve;
use decide::Refusal;
use scan::answer::Drawn;

// Writes the mark, over or under, in each cell of the curve's path. Refused: 11, 21, 12, 13, 14, 15.
pub fn draw_path(side: u32, curve: Curve, grid: &mut [u8]) -> Result<Drawn, Refusal>
    ensures { Draws (path_drawing side (curve_of curve)) grid.old grid.new result }
{
    let cube = scan::refusal::is_volume(side, grid.len());
    curve::before_test(side, curve, !cube, curve.mark == 0, false)?;
    curve::steps::test_steps(curve)?;
    Ok(mark::mark_cells(side, curve, curve.choice, grid))
}

// Writes x y z of each cell of the curve's path from the front of the list. Refused: 11, 13, 14, 15, 22. Where the list has room
// for the longest path, 3 × n + 1 cells, nothing is counted; else a walk without writes counts the cells first.
pub fn list_path(side: u32, curve: Curve, list: &mut [u8]) -> Result<u32, Refusal>
    ensures { Lists (path_listing side (curve_of curve)) list.old list.new result }
{
    curve::check_curve(side, curve)?;
    let most = 3 * curve.steps as usize + 1;
    if list.len() < 3 * most && list.len() < 3 * list::count_cells(side, curve) as usize {
        return Err(Refusal::Short);
    }
    Ok(list::list_cells(side, curve, list))
}
