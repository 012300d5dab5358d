// Solids beside the curve or the patch that they may be in disguise, which is lent bytes that hold the same.
use crate::calls::solid_of;
use both_ways::calls::{drawn, held_if};
use both_ways::{Said, same_answer, same_from};
use cases::answer::Answer;
use cases::record::number;
use curve::Curve;
use patch::Patch;
use solid::Solid;

// Draws a solid, and the curve of its points along one parameter or the patch along two. Answers what the solid's call
// said, where the other said the same but for the number of samples and the lent bytes are the same.
pub(crate) fn draw_both(case: &[u8; 649], grid: &mut [u8], again: &mut [u8]) -> Answer<5> {
    let side = number(case, 0);
    let parameter = number(case, 7);
    let solid = solid_of(case);
    let one = drawn(solid::draw_solid(side, solid, grid));
    let other = drawn(if case[0] == b'K' {
        curve::draw_curve(side, curve_of(solid, parameter), again)
    } else {
        patch::draw_patch(side, patch_of(solid, parameter), again)
    });
    let both = same_answer(without_samples(one), without_samples(other))
        && same_from(grid, again, 0);
    held_if(both, one, grid)
}

// An answer without the number of samples.
fn without_samples(said: Said) -> Said {
    said.map(|counts| (0, counts.1))
}

// The curve of a solid's points along t, u or v, the other indices 0. By index, of which the points' numbers are made.
fn curve_of(solid: Solid, along: u32) -> Curve {
    let mut points = [0; 12];
    for i in 0..12 {
        let k = i / 3;
        let from = match along {
            0 => 16 * k,
            1 => 4 * k,
            _ => k,
        };
        points[i] = solid.points[3 * from + i % 3];
    }
    Curve {
        points,
        steps: match along {
            0 => solid.n,
            1 => solid.m,
            _ => solid.l,
        },
        mark: solid.mark,
        choice: solid.choice,
    }
}

// The patch of a solid's points without t, u or v, whose index is 0.
fn patch_of(solid: Solid, without: u32) -> Patch {
    let mut points = [0; 48];
    for i in 0..48 {
        let k = i / 3;
        let from = match without {
            0 => k,
            1 => 16 * (k / 4) + k % 4,
            _ => 4 * k,
        };
        points[i] = solid.points[3 * from + i % 3];
    }
    let (n, m) = match without {
        0 => (solid.m, solid.l),
        1 => (solid.n, solid.l),
        _ => (solid.n, solid.m),
    };
    Patch {
        points,
        n,
        m,
        mark: solid.mark,
        choice: solid.choice,
    }
}
