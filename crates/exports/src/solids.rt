// Solids.
ghost use Rattle.drawing.specs.declared.Choice.TheVariants.{Over};
ghost use Rattle.drawing.specs.Object.{solid};
ghost use Rattle.drawing.specs.Drawing.{drawing_of};
ghost use Rattle.exports.specs.Records.{choice_of, ChecksBytes, DrawsBytes};

use crate::signed::{drawn, refused};
use decide::Refusal;
use drawing::Choice;
use solid::Solid;

#[unsafe(no_mangle)]
pub extern "C" fn gidzkhalu_check_solid(side: u32, points: &[u8], n: u32, m: u32, l: u32) -> i64
    ensures { ChecksBytes 192 side (solid n m l points.now 0 Over) 0 result }
{
    let Ok(points) = <[u8; 192]>::try_from(points) else {
        return refused(Refusal::RecordLength);
    };
    let solid = Solid {
        points,
        n,
        m,
        l,
        mark: 0,
        choice: Choice::Over,
    };
    match solid::check_solid(side, solid) {
        Ok(()) => 0,
        Err(refusal) => refused(refusal),
    }
}

#[unsafe(no_mangle)]
pub extern "C" fn gidzkhalu_draw_solid(
    side: u32,
    points: &[u8],
    n: u32,
    m: u32,
    l: u32,
    mark: u8,
    choice: u32,
    grid: &mut [u8],
    new_cells: &mut u32,
) -> i64
    ensures { DrawsBytes 192 points.now choice
        (drawing_of side (solid n m l points.now mark (choice_of choice)))
        grid.old grid.new new_cells.old new_cells.new result }
{
    let Ok(points) = <[u8; 192]>::try_from(points) else {
        return refused(Refusal::RecordLength);
    };
    let Ok(choice) = Choice::try_from(choice) else {
        return refused(Refusal::Choice);
    };
    let solid = Solid {
        points,
        n,
        m,
        l,
        mark,
        choice,
    };
    drawn(solid::draw_solid(side, solid, grid), new_cells)
}
