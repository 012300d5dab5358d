// What is printed on standard output. No contract says what is written, so a program above prints stored sheets by
// these functions.
ghost use Rattle.std.specs.Prelude.{◌≤◌, length};

use crate::{draw_or_refuse, total_sheet};
use sheet_text::grid::Cube;
use std::io::{self, Stdout, Write};

// Draws a sheet and prints the listing of its cube, or its refusal line.
pub fn print_listing(output: Stdout, sheet: &[u8]) -> io::Result<()> {
    let mut buffer = [0u8; 64000];
    let mut text = [0u8; 65536];
    match draw_or_refuse(sheet, &mut buffer, &mut text) {
        Ok(side) => {
            let cells = sheet_cube::cells(side);
            let cube = Cube {
                side,
                bytes: &buffer[..cells],
            };
            print_planes(output, cube, &mut text)
        }
        Err(bytes) => print(output, &text[..bytes]),
    }
}

// Draws a sheet and prints the totals of its cube, or its refusal line.
pub fn print_totals(output: Stdout, sheet: &[u8]) -> io::Result<()> {
    let mut buffer = [0u8; 64000];
    let mut text = [0u8; 13056];
    let bytes = total_sheet(sheet, &mut buffer, &mut text);
    print(output, &text[..bytes])
}

// Writes all of a text.
fn print(output: Stdout, text: &[u8]) -> io::Result<()> {
    let mut writer = output;
    writer.write_all(text)
}

// Some planes at a time, as many as the text holds.
fn print_planes(output: Stdout, cube: Cube, text: &mut [u8]) -> io::Result<()>
    requires side_bound { cube.side ≤ 40 }
    requires in_bounds { 33621 ≤ length text.old }
{
    let planes = cube.side as usize;
    let mut z = 0;
    while z < planes {
        let listed = sheet_listing::list_planes(cube, z, text);
        print(output, &text[..listed.bytes])?;
        z = listed.next;
    }
    Ok(())
}
