// The refusals before the step test.
ghost use Rattle.std.specs.Prelude.{◌≡◌, eqb};
ghost use Rattle.decide.specs.Some.{some_of};
ghost use Rattle.decide.specs.Refusal.{first_that};
ghost use Rattle.decide.specs.Verdict.{verdict_of};
ghost use Rattle.cube.specs.Cube.{volume};
ghost use Rattle.drawing.specs.Refusals.{count_out, coordinate_out};
ghost use Rattle.scan.specs.Refusals.{before_steps};

use decide::Refusal;

// Some coordinate is not below the side.
fn some_coordinate_out(side: u32, points: &[u8]) -> bool
    ensures { result ≡ some_of (coordinate_out side) points.now }
{
    points.iter().any(|&c| u32::from(c) >= side)
}

// A step count is outside its range, 1 to most.
#[tactic(auto, unfolding(drawing::specs::Refusals::count_out))]
pub fn is_count_out(most: u32, n: u32) -> bool
    ensures { result ≡ count_out most n }
{
    n == 0 || most < n
}

// The grid has S × S × S bytes. The cube of 2642246 is above 2^64, and so above every length.
pub fn is_volume(side: u32, bytes: usize) -> bool
    ensures { result ≡ eqb bytes (volume side) }
{
    let s = side as usize;
    side <= 2642245 && bytes == s * s * s
}

// The first number that applies of 11, 21, 12, 13, 22 and 14, with what grid, mark, counts and list have to say: four tests,
// one by one as the definition takes them.
#[tactic(auto, unfolding(crate::specs::Refusals::before_steps, decide::specs::Refusal::first_that, cube::specs::Cube::side_out))]
pub fn before_steps(
    side: u32,
    points: &[u8],
    grid_wrong: bool,
    mark_wrong: bool,
    count_out: bool,
    list_short: bool,
) -> Result<(), Refusal>
    ensures { verdict_of result ≡
        first_that (before_steps side points.now grid_wrong mark_wrong count_out list_short) }
{
    if side < 2 || 64 < side {
        return Err(Refusal::Side);
    }
    if grid_wrong {
        return Err(Refusal::Length);
    }
    if mark_wrong {
        return Err(Refusal::Mark);
    }
    if count_out {
        return Err(Refusal::Steps);
    }
    if list_short {
        return Err(Refusal::Short);
    }
    if some_coordinate_out(side, points) {
        return Err(Refusal::Coordinate);
    }
    Ok(())
}
