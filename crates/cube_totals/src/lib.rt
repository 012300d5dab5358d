// The key totals of a cube: for every mark that some cell holds the count of its cells and the sums of their coordinates.
// Open to callers: `write_totals`. `put_totals` is `pub` for the crates above.
#![tactic(auto)]

mod tally;

ghost use Rattle.std.specs.Prelude.{◌≡◌, ◌∷◌, ◌≤◌, ◌<◌, length};
ghost use Rattle.decide.specs.Refusal.{first_that};
ghost use Rattle.sheet.specs.Line.{in_line};
ghost use Rattle.sheet_text.specs.Puts.{Puts};
ghost use Rattle.sheet_text.specs.Writes.{Writes};
ghost use Rattle.totals.specs.Totals.{totals};
ghost use Rattle.totals.specs.Call.{totals_order};
ghost use Rattle.cube_totals.specs.Table.{four_of};

use crate::tally::{Total, tally, total_of};
use decide::Refusal;
use sheet_text::grid::Cube;
use sheet_text::text::put_columns;

/// Writes the totals of a cube: a line for each mark from 1 to 255 that some cell holds, then that of mark 0. Answers the
/// number of bytes written. Refused: 11, 21, 22.
pub fn write_totals(side: u32, cube: &[u8], text: &mut [u8]) -> Result<usize, Refusal>
    ensures { Writes (first_that (totals_order side (length cube.now) (length text.old)))
        (totals side cube.now) text.old text.new result }
{
    let cube = Cube::try_new(side, cube)?;
    if text.len() < 13056 {
        return Err(Refusal::Short);
    }
    Ok(put_totals(cube, text))
}

/// The same, into a text that has room for every line. Answers the number of bytes.
pub fn put_totals(cube: Cube, text: &mut [u8]) -> usize
    requires in_bounds { 13056 ≤ length text.old }
    ensures { Puts (totals cube.entry.side cube.entry.bytes.now) text.old text.new result }
{
    let table = tally(cube);
    let mut bytes = 0;
    for mark in 1..256 {
        let held = total_of(&table, mark);
        if held.count != 0 {
            put_line(mark, held, &mut text[bytes..bytes + 51]);
            bytes += 51;
        }
    }
    put_line(0, total_of(&table, 0), &mut text[bytes..bytes + 51]);
    bytes + 51
}

// The line of a mark.
fn put_line(mark: usize, held: Total, line: &mut [u8])
    requires mark_bound { mark < 256 }
    requires line_len { length line.old ≡ 51 }
    ensures { line.new ≡ in_line 10 (mark ∷ four_of held) }
{
    put_columns(mark as u32, &mut line[..10]);
    put_columns(held.count, &mut line[10..20]);
    put_columns(held.x, &mut line[20..30]);
    put_columns(held.y, &mut line[30..40]);
    put_columns(held.z, &mut line[40..50]);
    line[50] = b'\n';
}
