// The curve or the patch of a case, and what a call answered.
use both_ways::Said;
use both_ways::calls::choice_of;
use cases::points::points;
use cases::record::{byte, number};
use curve::Curve;
use curve::steps::StepTest;
use decide::Refusal;
use patch::Patch;

// What a listing, or the choice of a step count, answered: the count.
pub(crate) fn counted(answer: Result<u32, Refusal>) -> Said {
    answer.map(|count| (count, 0))
}

// What a check of a curve answered: 1 where the step test quit, 0 where it walked.
pub(crate) fn curve_checked(answer: Result<StepTest, Refusal>) -> Said {
    answer.map(|test| match test {
        StepTest::Quit => (1, 0),
        StepTest::Walked => (0, 0),
    })
}

// The case's curve.
pub(crate) fn curve_of(case: &[u8; 199]) -> Curve {
    Curve {
        points: points(case, 6),
        steps: number(case, 1),
        mark: byte(case, 2),
        choice: choice_of(number(case, 5)),
    }
}

// The case's patch.
pub(crate) fn patch_of(case: &[u8; 199]) -> Patch {
    Patch {
        points: points(case, 6),
        n: number(case, 1),
        m: number(case, 4),
        mark: byte(case, 2),
        choice: choice_of(number(case, 5)),
    }
}
