// Patches.
ghost use Rattle.drawing.specs.declared.Choice.TheVariants.{Over};
ghost use Rattle.drawing.specs.Object.{patch};
ghost use Rattle.drawing.specs.Drawing.{drawing_of};
ghost use Rattle.exports.specs.Records.{choice_of, ChecksBytes, DrawsBytes};

use crate::signed::{drawn, refused};
use decide::Refusal;
use drawing::Choice;
use patch::Patch;

#[unsafe(no_mangle)]
pub extern "C" fn gidzkhalu_check_patch(side: u32, points: &[u8], n: u32, m: u32) -> i64
    ensures { ChecksBytes 48 side (patch n m points.now 0 Over) 0 result }
{
    let Ok(points) = <[u8; 48]>::try_from(points) else {
        return refused(Refusal::RecordLength);
    };
    let patch = Patch {
        points,
        n,
        m,
        mark: 0,
        choice: Choice::Over,
    };
    match patch::check_patch(side, patch) {
        Ok(()) => 0,
        Err(refusal) => refused(refusal),
    }
}

#[unsafe(no_mangle)]
pub extern "C" fn gidzkhalu_draw_patch(
    side: u32,
    points: &[u8],
    n: u32,
    m: u32,
    mark: u8,
    choice: u32,
    grid: &mut [u8],
    new_cells: &mut u32,
) -> i64
    ensures { DrawsBytes 48 points.now choice
        (drawing_of side (patch n m points.now mark (choice_of choice)))
        grid.old grid.new new_cells.old new_cells.new result }
{
    let Ok(points) = <[u8; 48]>::try_from(points) else {
        return refused(Refusal::RecordLength);
    };
    let Ok(choice) = Choice::try_from(choice) else {
        return refused(Refusal::Choice);
    };
    let patch = Patch {
        points,
        n,
        m,
        mark,
        choice,
    };
    drawn(patch::draw_patch(side, patch, grid), new_cells)
}
