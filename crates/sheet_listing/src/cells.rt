// The lines of cells.
ghost use Rattle.std.specs.Prelude.{◌≡◌, [], ◌∷◌, ◌+◌, ◌*◌, ◌-◌, ◌≤◌, length, take, drop};
ghost use Rattle.sheet.specs.Line.{as_line};
ghost use Rattle.sheet.specs.Printed.{cell_lines};
ghost use Rattle.sheet_text.specs.Puts.{Puts};
ghost use Rattle.sheet_listing.specs.Row.{row_lines};

use sheet_text::grid::Cube;
use sheet_text::text::put_columns;

// The line of a marked cell.
fn put_cell(x: u8, y: u8, z: u8, mark: u8, line: &mut [u8])
    requires { length line.old ≡ 21 }
    ensures { line.new ≡ as_line (x ∷ y ∷ z ∷ mark ∷ []) }
{
    put_columns(u32::from(x), &mut line[..5]);
    put_columns(u32::from(y), &mut line[5..10]);
    put_columns(u32::from(z), &mut line[10..15]);
    put_columns(u32::from(mark), &mut line[15..20]);
    line[20] = b'\n';
}

// The lines of a row's cells from x on.
fn put_row(marks: &[u8], x: usize, y: u8, z: u8, text: &mut [u8]) -> usize
    requires marks_bound { x + length marks.now ≤ 256 }
    requires marks_in_bounds { 21 * length marks.now ≤ length text.old }
    ensures { Puts (row_lines x y z marks.now) text.old text.new result }
{
    let mut bytes = 0;
    for (i, &mark) in marks.iter().enumerate() {
        if mark != 0 {
            put_cell((x + i) as u8, y, z, mark, &mut text[bytes..bytes + 21]);
            bytes += 21;
        }
    }
    bytes
}

// The lines of n places from byte first on, row by row. The first row and the last may be parts of rows, so no chunks.
pub(crate) fn put_cells(cube: Cube, first: usize, n: usize, text: &mut [u8]) -> usize
    requires n_in_cube { n ≤ length cube.bytes.now - first }
    requires n_in_bounds { 21 * n ≤ length text.old }
    ensures { Puts (cell_lines cube.entry.side first (take n (drop first cube.entry.bytes.now)))
        text.old text.new result }
{
    let side = cube.side as usize;
    let end = first + n;
    let mut x = first % side;
    let mut y = first / side % side;
    let mut z = first / side / side;
    let mut p = first;
    let mut bytes = 0;
    while p < end {
        let stop = end.min(p + (side - x));
        bytes += put_row(
            &cube.bytes[p..stop],
            x,
            y as u8,
            z as u8,
            &mut text[bytes..],
        );
        p = stop;
        x = 0;
        y += 1;
        if y == side {
            y = 0;
            z += 1;
        }
    }
    bytes
}
