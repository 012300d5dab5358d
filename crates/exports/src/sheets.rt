// Sheets.
ghost use Rattle.exports.specs.Sheet.{SheetBytes};

use crate::signed::refused;

#[unsafe(no_mangle)]
pub extern "C" fn gidzkhalu_draw_sheet(
    input: &[u8],
    buffer: &mut [u8],
    detail: &mut u32,
    new_cells: &mut u32,
) -> i64
    ensures { SheetBytes input.now buffer.old buffer.new detail.new
        new_cells.old new_cells.new result }
{
    match sheet_cube::draw_sheet(input, buffer) {
        Ok(sheet) => {
            *detail = sheet.side;
            *new_cells = sheet.new_cells;
            i64::from(sheet.curves)
        }
        Err(at) => {
            *detail = at.line;
            refused(at.refusal)
        }
    }
}
