// The drawing of a good sheet.
ghost use Rattle.std.specs.Prelude.{◌≡◌, length};
ghost use Rattle.cube.specs.Cube.{volume};
ghost use Rattle.sheet.specs.Sheet.{judge};
ghost use Rattle.sheet.specs.Call.{drew, said, buffer_after};
ghost use Rattle.sheet_cube.specs.Lines.{sized, found};

use crate::judge::Size;
use sheet_lines::line::read_curve;

// Clears the cube of a good sheet and draws the curve lines in turn. Answers the sum of their new cells.
pub(crate) fn draw_lines(input: &[u8], size: Size, cube: &mut [u8]) -> u32
    requires input_value { found (judge input.now) ≡ sized size.side size.curves }
    requires cube_len { length cube.old ≡ volume size.side }
    ensures input_value_2 { said (judge input.now) ≡ drew size.side size.curves result }
    ensures cube_after { cube.new ≡ buffer_after (judge input.now) cube.old }
{
    cube.fill(0);
    let mut new_cells = 0;
    for line in input[6..].chunks_exact(71) {
        let Some(curve) = read_curve(line) else {
            unreachable!()
        };
        new_cells += curve::samples::mark_samples(size.side, curve, cube);
    }
    new_cells
}
