// Listings and totals as text.
ghost use Rattle.std.specs.Prelude.{◌≡◌, ◌^◌, length};
ghost use Rattle.integers.specs.Magnitude.{Within};
ghost use Rattle.decide.specs.Refusal.{first_that};
ghost use Rattle.decide.specs.Verdict.{outcome_of};
ghost use Rattle.sheet.specs.Printed.{refusal_line};
ghost use Rattle.sheet.specs.Part.{part, part_order, line_order};
ghost use Rattle.totals.specs.Totals.{totals};
ghost use Rattle.totals.specs.Call.{totals_order};
ghost use Rattle.exports.specs.Signed.{signed_of};
ghost use Rattle.exports.specs.Text.{SmallWritten, WritesSigned};

use crate::signed::refused;
use decide::Refusal;

#[unsafe(no_mangle)]
pub extern "C" fn gidzkhalu_list_part(
    side: u32,
    cube: &[u8],
    first: usize,
    count: usize,
    text: &mut [u8],
) -> i64
    ensures { WritesSigned (first_that (part_order side count (length cube.now) (length text.old)))
        (part side first count cube.now) text.old text.new result }
{
    written(sheet_listing::list_part(side, cube, first, count, text))
}

#[unsafe(no_mangle)]
pub extern "C" fn gidzkhalu_totals(side: u32, cube: &[u8], text: &mut [u8]) -> i64
    ensures { WritesSigned (first_that (totals_order side (length cube.now) (length text.old)))
        (totals side cube.now) text.old text.new result }
{
    written(cube_totals::write_totals(side, cube, text))
}

#[unsafe(no_mangle)]
pub extern "C" fn gidzkhalu_refusal_line(number: u32, line: u32, text: &mut [u8]) -> i64
    ensures { WritesSigned (first_that (line_order number line (length text.old))) (refusal_line number line)
        text.old text.new result }
{
    written(sheet_text::refusal_line(number, line, text))
}

// The number of bytes written, or minus the refusal's number.
fn written(answer: Result<usize, Refusal>) -> i64
    requires { SmallWritten answer }
    ensures { (result ≡ signed_of (outcome_of answer)) × Within (2 ^ 32) result }
{
    match answer {
        Ok(bytes) => bytes as i64,
        Err(refusal) => refused(refusal),
    }
}
