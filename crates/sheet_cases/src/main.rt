// Runs stored stroke sheets: reads cases from standard input and writes an answer record for each.
//
// A case is a heading, a record
//
//     S lent first step part length
//
// and then as many bytes as the length says, at most 16384: the sheet. There is one buffer of 65536 bytes; lent to the
// call are the first of them, as many as the heading says, after byte i of them has become first + step × i, modulo 256.
// The answers are
//
//     A side curves new held printed           accepted: the side, the number of curve lines, the sum of new cells
//     R number line 0 held printed             refused
//
// where held are three numbers for what the lent bytes hold afterwards, and printed three for the listing, or the refusal
// line, of this answer: their digests (`cases::digest`), begun with 1. The listing is made plane by plane, or, if part is
// not 0, in parts of so many places.
//
// A heading has 5 numbers, hence 46 bytes, and an answer 9, hence 83 bytes.
#![tactic(auto)]

mod printed;

use cases::answer::{Answer, Digits};
use cases::block::write_answers;
use cases::bytes::fill;
use cases::digest::{Digest, eight};
use cases::input::{read_bytes, read_heading};
use cases::record::{byte, number};
use cases::run::{Stop, run};
use sheet_cube::{LineRefusal, Sheet};
use std::io::{Stdin, Stdout};

fn main(rt: HostRuntime) {
    let mut buffer = [0u8; 65536];
    run(rt.stdout(), rt.stderr(), || {
        answer_next(rt.stdin(), rt.stdout(), &mut buffer)
    });
}

// Reads the next case and writes its answer. One that asks for more bytes than there are is a failure.
fn answer_next(input: Stdin, output: Stdout, buffer: &mut [u8; 65536]) -> Result<(), Stop> {
    let mut heading = [0u8; 46];
    read_heading(input, &mut heading, b'S')?;
    let lent = number(&heading, 0) as usize;
    let count = number(&heading, 4) as usize;
    let mut sheet = [0u8; 16384];
    if buffer.len() < lent || sheet.len() < count {
        return Err(Stop::Failed);
    }
    read_bytes(input, &mut sheet[..count])?;
    let mut record = [0u8; 83];
    answer_sheet(&heading, &sheet[..count], &mut buffer[..lent]).put(&mut record);
    write_answers(output, &record)
}

// Draws the sheet into the lent bytes, once these are filled, and answers what they then hold and what is printed.
fn answer_sheet(heading: &[u8; 46], sheet: &[u8], lent: &mut [u8]) -> Answer<9> {
    let mut text = [0u8; 33621];
    fill(lent, byte(heading, 1), byte(heading, 2));
    let answer = sheet_cube::draw_sheet(sheet, lent);
    let held = Digest::begun(1).extended(lent);
    let printed = printed::printed(answer, lent, number(heading, 3), &mut text);
    answered(answer, held, printed)
}

// The answer of a sheet, with the digests of what the lent bytes hold and of what is printed.
fn answered(answer: Result<Sheet, LineRefusal>, held: Digest, printed: Digest) -> Answer<9> {
    let (letter, [a, b, new_cells]) = match answer {
        Ok(drawn) => (b'A', [drawn.side, drawn.curves, drawn.new_cells]),
        Err(refused) => (b'R', [u32::from(refused.refusal), refused.line, 0]),
    };
    Answer {
        letter,
        digits: Digits::Decimal,
        numbers: [
            a,
            b,
            new_cells,
            eight(held.marked),
            eight(held.first),
            eight(held.second),
            eight(printed.marked),
            eight(printed.first),
            eight(printed.second),
        ],
    }
}
