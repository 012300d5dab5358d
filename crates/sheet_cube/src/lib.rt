// Stroke sheets: judged line by line, then drawn. Open to callers: `draw_sheet`. Whatever else is `pub` is so for the
// crates above.
#![tactic(auto)]

mod draw;
mod judge;

ghost use Rattle.std.specs.Prelude.{◌≡◌, ◌≤◌};
ghost use Rattle.cube.specs.Cube.{volume};
ghost use Rattle.sheet_cube.specs.Answer.{DrawsSheet};

use decide::Refusal;

/// An accepted sheet: the side of its cube, the number of its curve lines, and that of the cells that they marked.
#[derive(Clone, Copy)]
pub struct Sheet {
    pub side: u32,
    pub curves: u32,
    pub new_cells: u32,
}

/// Why a sheet is refused, and the line that is refused: 0 where the buffer is.
#[derive(Clone, Copy)]
pub struct LineRefusal {
    pub refusal: Refusal,
    pub line: u32,
}

// Draws a sheet into the first S × S × S bytes of the buffer, once every line is judged. Refused: 21 with line 0, and
// the numbers of lines.
pub fn draw_sheet(input: &[u8], buffer: &mut [u8]) -> Result<Sheet, LineRefusal>
    ensures { DrawsSheet input.now buffer.old buffer.new result }
{
    if buffer.len() != 64000 {
        return Err(LineRefusal {
            refusal: Refusal::Length,
            line: 0,
        });
    }
    let size = judge::judge_sheet(input)?;
    let cells = cells(size.side);
    let new_cells = draw::draw_lines(input, size, &mut buffer[..cells]);
    Ok(Sheet {
        side: size.side,
        curves: size.curves,
        new_cells,
    })
}

// The number of cells of a sheet's cube, the bytes that it takes of the buffer.
pub fn cells(side: u32) -> usize
    requires { side ≤ 40 }
    ensures { result ≡ volume side }
{
    let s = side as usize;
    s * s * s
}
