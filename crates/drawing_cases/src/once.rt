// Calls made once: those with the path of a curve, of which the flip rule does not speak.
use crate::calls::{counted, curve_of};
use both_ways::calls::{drawn, held};
use cases::answer::Answer;
use cases::record::number;

// Draws a path.
pub(crate) fn draw_path(case: &[u8; 199], grid: &mut [u8]) -> Answer<5> {
    let answer = path::draw_path(number(case, 0), curve_of(case), grid);
    held(drawn(answer), grid)
}

// Lists a path.
pub(crate) fn list_path(case: &[u8; 199], list: &mut [u8]) -> Answer<5> {
    let answer = path::list_path(number(case, 0), curve_of(case), list);
    held(counted(answer), list)
}
