// The refusals of a sheet's lines.
ghost use Rattle.std.specs.Prelude.{◌≡◌, ◌≤◌};
ghost use Rattle.decide.specs.Refusal.{accepted, first_that};
ghost use Rattle.decide.specs.Verdict.{verdict_of};
ghost use Rattle.sheet.specs.Line.{number};
ghost use Rattle.sheet.specs.Sheet.{side_order, curve_order, judge};
ghost use Rattle.sheet_lines.specs.Read.{first_line};
ghost use Rattle.sheet_cube.specs.Lines.{found, found_of, SideOf};

use crate::LineRefusal;
use decide::Refusal;
use sheet_lines::line::{is_line, number_at, read_curve, refusal_of};

// The side of a sheet's cube and the number of its curve lines.
#[derive(Clone, Copy)]
pub(crate) struct Size {
    pub side: u32,
    pub curves: u32,
}

// The lines of a sheet.
pub(crate) fn judge_sheet(input: &[u8]) -> Result<Size, LineRefusal>
    ensures { found_of result ≡ found (judge input.now) }
{
    let side = judge_side(input).map_err(|refusal| LineRefusal { refusal, line: 1 })?;
    judge_curves(input, side)
}

// Line 1: 41, 42, 11, 43.
fn judge_side(input: &[u8]) -> Result<u32, Refusal>
    ensures { SideOf (first_line input.now) result }
{
    if !is_line(input, 1) {
        return Err(Refusal::Line);
    }
    match number_at(&input[..6], 0) {
        Some(side @ 2..=40) => Ok(side),
        Some(41..=64) => Err(Refusal::SheetSide),
        Some(_) => Err(Refusal::Side),
        None => Err(Refusal::Field),
    }
}

// The curve lines, after a good line 1.
fn judge_curves(input: &[u8], side: u32) -> Result<Size, LineRefusal>
    requires input_value { first_that (side_order (first_line input.now)) ≡ accepted }
    requires side_value { side ≡ number (first_line input.now) 0 }
    ensures { found_of result ≡ found (judge input.now) }
{
    let mut line = 2; // which the answer needs after the loop too
    for rest in input[6..].chunks(71) {
        judge_curve(side, line, rest).map_err(|refusal| LineRefusal { refusal, line })?;
        line += 1;
    }
    Ok(Size {
        side,
        curves: line - 2,
    })
}

// The first line of what is left, a curve line: 44, 41, 42, 12, 13, 14, 15.
fn judge_curve(side: u32, line: u32, rest: &[u8]) -> Result<(), Refusal>
    requires { (2 ≤ side) × (side ≤ 40) }
    ensures { verdict_of result ≡ first_that (curve_order side line (first_line rest.now)) }
{
    if line > 201 {
        return Err(Refusal::PastLastLine);
    }
    if !is_line(rest, 14) {
        return Err(Refusal::Line);
    }
    let text = &rest[..71];
    let Some(curve) = read_curve(text) else {
        return Err(refusal_of(text));
    };
    curve::check_curve(side, curve)?;
    Ok(())
}
