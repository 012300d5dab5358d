// Curves and patches on the strip. What the strip takes is a call of the main path's function for C.
ghost use Rattle.drawing.specs.Object.{curve, patch};
ghost use Rattle.strip.specs.Strip.{strip_drawing};
ghost use Rattle.exports.specs.Records.{choice_of, DrawsBytes};

use crate::curves::gidzkhalu_draw_curve;
use crate::patches::gidzkhalu_draw_patch;
use crate::signed::refused;
use decide::Refusal;
use drawing::Choice;
use strip::{judge_curve, judge_patch};

#[unsafe(no_mangle)]
pub extern "C" fn gidzkhalu_draw_strip_curve(
    side: u32,
    points: &[u8],
    steps: u32,
    mark: u8,
    choice: u32,
    grid: &mut [u8],
    new_cells: &mut u32,
) -> i64
    ensures { DrawsBytes 12 points.now choice
        (strip_drawing side (curve steps points.now mark (choice_of choice)))
        grid.old grid.new new_cells.old new_cells.new result }
{
    match judge_curve(side, steps, mark, grid.len()) {
        Ok(()) => gidzkhalu_draw_curve(side, points, steps, mark, choice, grid, new_cells),
        Err(refusal) => {
            if points.len() != 12 {
                return refused(Refusal::RecordLength);
            }
            let Ok(_) = Choice::try_from(choice) else {
                return refused(Refusal::Choice);
            };
            refused(refusal)
        }
    }
}

#[unsafe(no_mangle)]
pub extern "C" fn gidzkhalu_draw_strip_patch(
    side: u32,
    points: &[u8],
    n: u32,
    m: u32,
    mark: u8,
    choice: u32,
    grid: &mut [u8],
    new_cells: &mut u32,
) -> i64
    ensures { DrawsBytes 48 points.now choice
        (strip_drawing side (patch n m points.now mark (choice_of choice)))
        grid.old grid.new new_cells.old new_cells.new result }
{
    match judge_patch(side, n, m, mark, grid.len()) {
        Ok(()) => gidzkhalu_draw_patch(side, points, n, m, mark, choice, grid, new_cells),
        Err(refusal) => {
            if points.len() != 48 {
                return refused(Refusal::RecordLength);
            }
            let Ok(_) = Choice::try_from(choice) else {
                return refused(Refusal::Choice);
            };
            refused(refusal)
        }
    }
}
