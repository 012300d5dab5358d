// The solid of a case, and the calls with it alone.
use both_ways::calls::{checked, choice_of, drawn, held};
use cases::answer::Answer;
use cases::points::points;
use cases::record::{byte, number};
use solid::Solid;

// Draws a solid.
pub(crate) fn draw_solid(case: &[u8; 649], grid: &mut [u8]) -> Answer<5> {
    let answer = solid::draw_solid(number(case, 0), solid_of(case), grid);
    held(drawn(answer), grid)
}

// Checks a solid.
pub(crate) fn check_solid(case: &[u8; 649]) -> Answer<5> {
    let verdict = solid::check_solid(number(case, 0), solid_of(case));
    held(checked(verdict), b"")
}

// The case's solid.
pub(crate) fn solid_of(case: &[u8; 649]) -> Solid {
    Solid {
        points: points(case, 8),
        n: number(case, 1),
        m: number(case, 4),
        l: number(case, 6),
        mark: byte(case, 2),
        choice: choice_of(number(case, 5)),
    }
}
