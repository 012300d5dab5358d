// Curves whose step count the box chooses: the smallest that the curve rule accepts. Open to callers: `choose_steps` and
// `draw_chosen`.
#![tactic(auto)]

mod search;

ghost use Rattle.std.specs.Prelude.{◌≡◌};
ghost use Rattle.decide.specs.Refusal.{outcome, first_that};
ghost use Rattle.decide.specs.Verdict.{verdict_of, outcome_of};
ghost use Rattle.scan.specs.Answer.{Draws};
ghost use Rattle.chosen.specs.Chosen.{chosen, chosen_order, count_verdict, chosen_drawing};

use curve::Curve;
use decide::Refusal;
use scan::answer::Drawn;

// The smallest step count that the curve rule accepts. The record's own, its mark and its choice are not looked at.
// Refused: 11, 14.
pub fn choose_steps(side: u32, curve: Curve) -> Result<u32, Refusal>
    ensures { outcome_of result ≡ outcome (count_verdict side curve.points) (chosen curve.points) }
{
    before_search(side, curve, false, false)?;
    Ok(search::smallest(curve))
}

// Draws the curve with the chosen count in place of its own, which is not looked at: writes the mark, over or under, in each
// sample's cell of the grid. Refused: 11, 21, 12, 14.
pub fn draw_chosen(side: u32, curve: Curve, grid: &mut [u8]) -> Result<Drawn, Refusal>
    ensures { Draws (chosen_drawing side curve.points curve.mark curve.choice) grid.old grid.new result }
{
    let cube = scan::refusal::is_volume(side, grid.len());
    before_search(side, curve, !cube, curve.mark == 0)?;
    let chosen = search::with_steps(curve, search::smallest(curve));
    let new_cells = curve::samples::mark_samples(side, chosen, grid);
    let answer = chosen.steps + 1; // samples 0 to n
    Ok(Drawn { answer, new_cells })
}

// The first number that applies, with what grid and mark have to say. Neither a count nor a list has a say.
fn before_search(side: u32, curve: Curve, grid_wrong: bool, mark_wrong: bool) -> Result<(), Refusal>
    ensures { verdict_of result ≡ first_that (chosen_order side curve.points grid_wrong mark_wrong) }
{
    scan::refusal::before_steps(side, &curve.points, grid_wrong, mark_wrong, false, false)
}
