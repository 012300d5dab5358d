// Records that are drawn row by row, a patch and a solid: the order of their refusals, whose last is the step test, and the
// call that draws.
ghost use Rattle.std.specs.Prelude.{◌≡◌, Bool, false, ◌+◌, ◌<◌, length};
ghost use Rattle.decide.specs.Some.{some_of};
ghost use Rattle.decide.specs.Refusal.{accepted, first_that};
ghost use Rattle.decide.specs.Verdict.{verdict_of};
ghost use Rattle.drawing.specs.Object.{Object};
ghost use Rattle.drawing.specs.Refusals.{count_out, steps_too_long, sample_count, order, check_verdict, draw_verdict};
ghost use Rattle.drawing.specs.Drawing.{drawing_of, drawn};
ghost use Rattle.drawing.specs.NewCells.{unmarked_cells};
ghost use Rattle.scan.specs.Answer.{Draws};
ghost use Rattle.rows.specs.Record.{HasLimits, steps_too_long_along};

use decide::Refusal;
use scan::answer::Drawn;

// What a kind of record tells of itself, and its walk. `object` is what the record stands for in the definitions.
pub trait Record {
    ghost object: { Self → Object };

    fn points(&self) -> &[u8]
        ensures { result.now ≡ (object self.now).points };

    fn mark(&self) -> u8
        ensures { result ≡ (object self.now).mark };

    // Some step count is outside its range.
    fn is_count_out(&self) -> bool
        ensures { result ≡ some_of (count_out (object self.now).most) (object self.now).counts };

    // Some two neighbouring samples lie more than one cell apart on the axis number a.
    fn step_too_long_along(&self, a: usize) -> bool
        requires has_limits { HasLimits (object self.now) }
        requires a_bound { a < 3 }
        ensures { result ≡ steps_too_long_along (object self.now) a };

    // Marks the cells of an accepted record's samples, over or under.
    fn mark_samples(&self, side: u32, grid: &mut [u8]) -> Drawn
        requires { draw_verdict side (length grid.old) (object self.now) ≡ accepted }
        ensures answer_value { result.answer ≡ sample_count (object self.now).counts }
        ensures grid_after { result.new_cells + unmarked_cells grid.new ≡ unmarked_cells grid.old }
        ensures grid_after_2 { grid.new ≡ drawn side (object self.now) grid.old };
}

// Whether the record can be drawn in a cube of the given side. Refused: 11, 13, 14, 15.
pub fn check<R: Record>(side: u32, record: &R) -> Result<(), Refusal>
    ensures { verdict_of result ≡ check_verdict side (R.object record.now) }
{
    judge(side, record, false, false)
}

// Writes the mark, over or under, in each sample's cell of the grid. Refused: 11, 21, 12, 13, 14, 15.
pub fn draw<R: Record>(side: u32, record: &R, grid: &mut [u8]) -> Result<Drawn, Refusal>
    ensures { Draws (drawing_of side (R.object record.now)) grid.old grid.new result }
{
    let cube = scan::refusal::is_volume(side, grid.len());
    judge(side, record, !cube, record.mark() == 0)?;
    Ok(record.mark_samples(side, grid))
}

// The first number that applies, with what grid and mark have to say.
fn judge<R: Record>(
    side: u32,
    record: &R,
    grid_wrong: bool,
    mark_wrong: bool,
) -> Result<(), Refusal>
    ensures { verdict_of result ≡ first_that (order side (R.object record.now) grid_wrong mark_wrong false) }
{
    let count_out = record.is_count_out();
    let points = record.points();
    scan::refusal::before_steps(side, points, grid_wrong, mark_wrong, count_out, false)?;
    if step_too_long(record) {
        return Err(Refusal::LongStep);
    }
    Ok(())
}

// Some two neighbouring samples lie more than one cell apart on some axis.
fn step_too_long<R: Record>(record: &R) -> bool
    requires { HasLimits (R.object record.now) }
    ensures { result ≡ steps_too_long (R.object record.now) }
{
    record.step_too_long_along(0) || record.step_too_long_along(1) || record.step_too_long_along(2)
}
