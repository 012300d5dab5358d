// Text written into lent bytes: numbers in columns, the refusal line, and the cube that a text is written of. Open to
// callers: `refusal_line`. Whatever else is `pub` is so for the crates above.
#![tactic(auto)]

pub mod grid;
pub mod text;

ghost use Rattle.std.specs.Prelude.{◌≡◌, length};
ghost use Rattle.decide.specs.Refusal.{first_that};
ghost use Rattle.sheet.specs.Printed.{refusal_line};
ghost use Rattle.sheet.specs.Part.{line_order};
ghost use Rattle.sheet_text.specs.Writes.{Writes};

use crate::text::put_columns;
use decide::Refusal;

/// Writes the refusal line. Answers the number of bytes written. Refused: 54, 22.
pub fn refusal_line(number: u32, line: u32, text: &mut [u8]) -> Result<usize, Refusal>
    ensures { Writes (first_that (line_order number line (length text.old))) (refusal_line number line)
        text.old text.new result }
{
    if 99999 < number || 99999 < line {
        return Err(Refusal::Number);
    }
    if text.len() < 18 {
        return Err(Refusal::Short);
    }
    text[..7].copy_from_slice(b"REFUSED");
    put_columns(number, &mut text[7..12]);
    put_columns(line, &mut text[12..17]);
    text[17] = b'\n';
    Ok(18)
}
