// Runs stored stroke sheets: reads cases from standard input and prints for each what a sheet program prints.
//
// A case is a heading, a record
//
//     P report length
//
// and then as many bytes as the length says, at most 16384: the sheet. Report 0 is the listing, as stroke_sheet prints
// it, and report 1 the totals, as key_totals does. A heading has 2 numbers, hence 19 bytes.
#![tactic(auto)]

use cases::input::{read_bytes, read_heading};
use cases::record::number;
use cases::run::{Stop, run};
use sheet_program::{print_listing, print_totals};
use std::io::{Stdin, Stdout};

fn main(rt: HostRuntime) {
    run(
        rt.stdout(),
        rt.stderr(),
        || answer_next(rt.stdin(), rt.stdout()),
    );
}

// Reads the next case and prints its answer. One that asks for more bytes than there are, or for an unknown report, is a
// failure.
fn answer_next(input: Stdin, output: Stdout) -> Result<(), Stop> {
    let mut heading = [0u8; 19];
    read_heading(input, &mut heading, b'P')?;
    let count = number(&heading, 1) as usize;
    let mut sheet = [0u8; 16384];
    if sheet.len() < count {
        return Err(Stop::Failed);
    }
    read_bytes(input, &mut sheet[..count])?;
    let printed = match number(&heading, 0) {
        0 => print_listing(output, &sheet[..count]),
        1 => print_totals(output, &sheet[..count]),
        _ => return Err(Stop::Failed),
    };
    printed.map_err(|_| Stop::Failed)
}
