// Calls on the strip, each beside that of the main path, which is lent bytes that hold the same.
use crate::calls::{curve_of, patch_of};
use crate::twice::answered;
use both_ways::Said;
use both_ways::calls::{drawn, held};
use cases::answer::Answer;
use cases::record::number;
use decide::Refusal;

// Draws a curve. It is two calls of its own kind, as a patch is below: nothing but their order is shared.
pub(crate) fn draw_strip_curve(case: &[u8; 199], grid: &mut [u8], again: &mut [u8]) -> Answer<5> {
    let side = number(case, 0);
    let curve = curve_of(case);
    let one = drawn(strip::draw_strip_curve(side, curve, grid));
    let other = drawn(curve::draw_curve(side, curve, again));
    answered_beside(one, other, grid, again)
}

// Draws a patch.
pub(crate) fn draw_strip_patch(case: &[u8; 199], grid: &mut [u8], again: &mut [u8]) -> Answer<5> {
    let side = number(case, 0);
    let patch = patch_of(case);
    let one = drawn(strip::draw_strip_patch(side, patch, grid));
    let other = drawn(patch::draw_patch(side, patch, again));
    answered_beside(one, other, grid, again)
}

// The strip's answer: where it is a refusal of its own, 23 or 24, which the main path does not have, or where that of the
// main path is the same and the lent bytes are.
fn answered_beside(one: Said, other: Said, lent: &[u8], again: &[u8]) -> Answer<5> {
    match one {
        Err(Refusal::StripSide | Refusal::StripSteps) => held(one, lent),
        _ => answered(one, other, lent, again),
    }
}
