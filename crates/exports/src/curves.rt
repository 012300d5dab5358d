// Curves and their paths.
ghost use Rattle.drawing.specs.declared.Choice.TheVariants.{Over};
ghost use Rattle.drawing.specs.Object.{curve};
ghost use Rattle.drawing.specs.Drawing.{drawing_of, listing_of};
ghost use Rattle.gaps.specs.Gaps.{quits};
ghost use Rattle.chosen.specs.Chosen.{chosen_drawing};
ghost use Rattle.path.specs.Path.{path_drawing, path_listing};
ghost use Rattle.exports.specs.Records.{choice_of, ChecksBytes, quit_number, CountsBytes, ListsBytes, DrawsBytes};

use crate::signed::{drawn, refused, signed};
use curve::Curve;
use curve::steps::StepTest;
use decide::Refusal;
use drawing::Choice;

#[unsafe(no_mangle)]
pub extern "C" fn gidzkhalu_check_curve(side: u32, points: &[u8], steps: u32) -> i64
    ensures { ChecksBytes 12 side (curve steps points.now 0 Over) (quit_number (quits points.now steps)) result }
{
    let Ok(points) = <[u8; 12]>::try_from(points) else {
        return refused(Refusal::RecordLength);
    };
    let curve = Curve {
        mark: 0,
        choice: Choice::Over,
        steps,
        points,
    };
    match curve::check_curve(side, curve) {
        Ok(StepTest::Walked) => 0,
        Ok(StepTest::Quit) => 1,
        Err(refusal) => refused(refusal),
    }
}

#[unsafe(no_mangle)]
pub extern "C" fn gidzkhalu_list_curve(side: u32, points: &[u8], steps: u32, list: &mut [u8]) -> i64
    ensures { ListsBytes 12 points.now (listing_of side (curve steps points.now 0 Over))
        list.old list.new result }
{
    let Ok(points) = <[u8; 12]>::try_from(points) else {
        return refused(Refusal::RecordLength);
    };
    let curve = Curve {
        mark: 0,
        choice: Choice::Over,
        steps,
        points,
    };
    signed(curve::list_curve(side, curve, list))
}

#[unsafe(no_mangle)]
pub extern "C" fn gidzkhalu_draw_curve(
    side: u32,
    points: &[u8],
    steps: u32,
    mark: u8,
    choice: u32,
    grid: &mut [u8],
    new_cells: &mut u32,
) -> i64
    ensures { DrawsBytes 12 points.now choice
        (drawing_of side (curve steps points.now mark (choice_of choice)))
        grid.old grid.new new_cells.old new_cells.new result }
{
    let Ok(points) = <[u8; 12]>::try_from(points) else {
        return refused(Refusal::RecordLength);
    };
    let Ok(choice) = Choice::try_from(choice) else {
        return refused(Refusal::Choice);
    };
    let curve = Curve {
        mark,
        choice,
        steps,
        points,
    };
    drawn(curve::draw_curve(side, curve, grid), new_cells)
}

#[unsafe(no_mangle)]
pub extern "C" fn gidzkhalu_choose_steps(side: u32, points: &[u8]) -> i64
    ensures { CountsBytes 12 side points.now result }
{
    let Ok(points) = <[u8; 12]>::try_from(points) else {
        return refused(Refusal::RecordLength);
    };
    let curve = Curve {
        mark: 0,
        choice: Choice::Over,
        steps: 0,
        points,
    };
    signed(chosen::choose_steps(side, curve))
}

#[unsafe(no_mangle)]
pub extern "C" fn gidzkhalu_draw_chosen(
    side: u32,
    points: &[u8],
    mark: u8,
    choice: u32,
    grid: &mut [u8],
    new_cells: &mut u32,
) -> i64
    ensures { DrawsBytes 12 points.now choice
        (chosen_drawing side points.now mark (choice_of choice))
        grid.old grid.new new_cells.old new_cells.new result }
{
    let Ok(points) = <[u8; 12]>::try_from(points) else {
        return refused(Refusal::RecordLength);
    };
    let Ok(choice) = Choice::try_from(choice) else {
        return refused(Refusal::Choice);
    };
    let curve = Curve {
        mark,
        choice,
        steps: 0,
        points,
    };
    drawn(chosen::draw_chosen(side, curve, grid), new_cells)
}

#[unsafe(no_mangle)]
pub extern "C" fn gidzkhalu_list_path(side: u32, points: &[u8], steps: u32, list: &mut [u8]) -> i64
    ensures { ListsBytes 12 points.now (path_listing side (curve steps points.now 0 Over))
        list.old list.new result }
{
    let Ok(points) = <[u8; 12]>::try_from(points) else {
        return refused(Refusal::RecordLength);
    };
    let curve = Curve {
        mark: 0,
        choice: Choice::Over,
        steps,
        points,
    };
    signed(path::list_path(side, curve, list))
}

#[unsafe(no_mangle)]
pub extern "C" fn gidzkhalu_draw_path(
    side: u32,
    points: &[u8],
    steps: u32,
    mark: u8,
    choice: u32,
    grid: &mut [u8],
    new_cells: &mut u32,
) -> i64
    ensures { DrawsBytes 12 points.now choice
        (path_drawing side (curve steps points.now mark (choice_of choice)))
        grid.old grid.new new_cells.old new_cells.new result }
{
    let Ok(points) = <[u8; 12]>::try_from(points) else {
        return refused(Refusal::RecordLength);
    };
    let Ok(choice) = Choice::try_from(choice) else {
        return refused(Refusal::Choice);
    };
    let curve = Curve {
        mark,
        choice,
        steps,
        points,
    };
    drawn(path::draw_path(side, curve, grid), new_cells)
}
