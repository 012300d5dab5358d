// What the sheet programs share: a sheet is read from standard input and drawn, and what is asked of its cube, or the
// line that says why it is refused, is printed. No function is open to callers: what is `pub` is so for the programs.
#![tactic(auto)]

mod print;

ghost use Rattle.std.specs.Prelude.{◌≤◌, length};
ghost use Rattle.sheet_program.specs.Draws.{DrawsOrRefuses};
ghost use Rattle.sheet_program.specs.Totals.{WritesTotals};

pub use print::{print_listing, print_totals};
use sheet_text::grid::Cube;
use std::io::{Stderr, Stdin, Stdout, Write};

// What a program prints of a sheet's cube.
#[derive(Clone, Copy)]
pub enum Report {
    Listing,
    Totals,
}

// Draws a sheet into the buffer, or writes the line that says why it is refused. Answers the side of the cube that is
// drawn, or the number of bytes of the refusal line.
pub fn draw_or_refuse(input: &[u8], buffer: &mut [u8; 64000], text: &mut [u8]) -> Result<u32, usize>
    requires { 18 ≤ length text.old }
    ensures { DrawsOrRefuses input.now buffer.old buffer.new
        text.old text.new result }
{
    match sheet_cube::draw_sheet(input, buffer) {
        Ok(sheet) => Ok(sheet.side),
        Err(refused) => {
            let _ = sheet_text::refusal_line(u32::from(refused.refusal), refused.line, text);
            Err(18)
        }
    }
}

// Draws a sheet and writes the totals of its cube, or the line that says why it is refused. Answers the number of bytes.
pub fn total_sheet(input: &[u8], buffer: &mut [u8; 64000], text: &mut [u8]) -> usize
    requires { 13056 ≤ length text.old }
    ensures { WritesTotals input.now buffer.old buffer.new
        text.old text.new result }
{
    match draw_or_refuse(input, buffer, text) {
        Ok(side) => {
            let cells = sheet_cube::cells(side);
            let cube = Cube {
                side,
                bytes: &buffer[..cells],
            };
            cube_totals::put_totals(cube, text)
        }
        Err(bytes) => bytes,
    }
}

// Runs the program of that name. The input is read to its end, or to one byte past the longest sheet: what follows
// changes nothing.
pub fn run(input: Stdin, output: Stdout, errors: Stderr, name: &[u8], report: Report) {
    let mut sheet = [0u8; 14207];
    let mut reader = input;
    let Ok(count) = reading::fill(&mut reader, &mut sheet) else {
        tell(errors, name, b": the sheet cannot be read\n");
        return;
    };
    let printed = match report {
        Report::Listing => print_listing(output, &sheet[..count]),
        Report::Totals => print_totals(output, &sheet[..count]),
    };
    if printed.is_err() {
        tell(
            errors,
            name,
            b": the output cannot be written, or not all of it\n",
        );
    }
}

// Tells a failure of the program on standard error.
fn tell(errors: Stderr, name: &[u8], message: &[u8]) {
    let mut writer = errors;
    let _named = writer.write_all(name).is_ok();
    let _told = writer.write_all(message).is_ok();
}
