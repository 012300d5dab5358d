// Signed answers: a count, or minus the number of a refusal.
ghost use Rattle.std.specs.Prelude.{◌≡◌, ◌^◌};
ghost use Rattle.integers.specs.Magnitude.{Within};
ghost use Rattle.decide.specs.Verdict.{number_of, outcome_of};
ghost use Rattle.exports.specs.Signed.{minus, signed_of};
ghost use Rattle.exports.specs.Records.{answer_of, new_cells_after};

use decide::Refusal;
use scan::answer::Drawn;

// Minus a refusal's number.
pub(crate) fn refused(refusal: Refusal) -> i64
    ensures { (result ≡ minus (number_of refusal)) × Within (2 ^ 32) result }
{
    -i64::from(u32::from(refusal))
}

// A count, or minus the refusal's number.
pub(crate) fn signed(answer: Result<u32, Refusal>) -> i64
    ensures { (result ≡ signed_of (outcome_of answer)) × Within (2 ^ 32) result }
{
    match answer {
        Ok(count) => i64::from(count),
        Err(refusal) => refused(refusal),
    }
}

// Of a drawing: its number. That of new cells is written where the drawing is accepted.
pub(crate) fn drawn(answer: Result<Drawn, Refusal>, new_cells: &mut u32) -> i64
    ensures value { (result ≡ signed_of (answer_of (outcome_of answer))) × Within (2 ^ 32) result }
    ensures new_cells_after { new_cells.new ≡ new_cells_after (outcome_of answer) new_cells.old }
{
    match answer {
        Ok(drawn) => {
            *new_cells = drawn.new_cells;
            i64::from(drawn.answer)
        }
        Err(refusal) => refused(refusal),
    }
}
