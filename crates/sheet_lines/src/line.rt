// A line of a stroke sheet: where it ends, its numbers, and a curve line's curve.
ghost use Rattle.std.specs.Prelude.{◌≡◌, not, ◌+◌, ◌*◌, ◌≤◌, length, is_none};
ghost use Rattle.std.specs.List.{list_any, range_with_len};
ghost use Rattle.decide.specs.Verdict.{number_of};
ghost use Rattle.sheet.specs.Line.{field, is_wrong};
ghost use Rattle.sheet.specs.Sheet.{mark_out};
ghost use Rattle.sheet_lines.specs.Read.{read_field, first_line, read_line, unfit_refusal};

use crate::field::number;
use curve::Curve;
use decide::Refusal;
use drawing::Choice;

// The number in field k, from 0, if the field is good.
pub fn number_at(line: &[u8], k: usize) -> Option<u32>
    requires { 5 * k + 5 ≤ length line.now }
    ensures { result ≡ read_field (field line.now k) }
{
    let at = 5 * k;
    number(&line[at..at + 5])
}

// Whether the first line has as many fields, and its line feed after them.
pub fn is_line(rest: &[u8], fields: usize) -> bool
    requires { fields ≤ 14 }
    ensures { result ≡ not (is_wrong fields (first_line rest.now)) }
{
    let last = 5 * fields;
    last < rest.len() && !rest[..last].contains(&b'\n') && rest[last] == b'\n'
}

// A curve line's curve, if every field is good, the mark from 1 to 255 and every coordinate a byte. Reads each field
// once, up to one that does not fit. The line is a slice, as what is left of an input is cut up in chunks of one.
pub fn read_curve(line: &[u8]) -> Option<Curve>
    requires { 70 ≤ length line.now }
    ensures { result ≡ read_line line.now }
{
    let mark = number_at(line, 0)?;
    if is_mark_out(mark) {
        return None;
    }
    let steps = number_at(line, 1)?;
    let mut points = [0u8; 12];
    for (k, c) in points.iter_mut().enumerate() {
        *c = u8::try_from(number_at(line, k + 2)?).ok()?;
    }
    Some(Curve {
        mark: mark as u8,
        choice: Choice::Over, // as sheets always mean
        steps,
        points,
    })
}

// The mark is 0 or above 255.
fn is_mark_out(mark: u32) -> bool
    ensures { result ≡ mark_out mark }
{
    mark == 0 || 255 < mark
}

// Why a curve line that does not fit is refused: a coordinate that is no byte is not below any side.
pub fn refusal_of(line: &[u8]) -> Refusal
    requires { 70 ≤ length line.now }
    ensures { number_of result ≡ unfit_refusal line.now }
{
    let bad = some_bad(line);
    let mark_out = is_mark_out(number_at(line, 0).unwrap_or(0));
    let count_out = scan::refusal::is_count_out(512, number_at(line, 1).unwrap_or(0));
    if bad {
        Refusal::Field
    } else if mark_out {
        Refusal::Mark
    } else if count_out {
        Refusal::Steps
    } else {
        Refusal::Coordinate
    }
}

// Some field of a curve line is bad.
fn some_bad(line: &[u8]) -> bool
    requires { 70 ≤ length line.now }
    ensures { result ≡ list_any (λ k. is_none (read_field (field line.now k))) (range_with_len 0 14) }
{
    (0..14).any(|k| number_at(line, k).is_none())
}
