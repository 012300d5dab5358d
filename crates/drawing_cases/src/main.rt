// Runs stored cases of curves and patches: reads case records from standard input and writes an answer record for each.
//
//     F first step 0 length                        fills the lent bytes
//     S place stride                               shows 16 bytes of the buffer
//     D side steps mark length 0 choice points     draws a curve, the lent bytes as its grid
//     L side steps mark length 0 choice points     lists a curve, the lent bytes as its list
//     C side steps mark 0 0 choice points          checks a curve
//     M side steps mark 0 0 choice points          chooses the step count of a curve
//     W side steps mark length 0 choice points     draws a curve with a chosen count, the lent bytes as its grid
//     P side n mark length m choice points         draws a patch, the lent bytes as its grid
//     Q side n mark 0 m choice points              checks a patch
//     T side steps mark length 0 choice points     draws a curve's path, the lent bytes as its grid
//     U side steps mark length 0 choice points     lists a curve's path, the lent bytes as its list
//     G side steps mark length 0 choice points     draws a curve on the strip, the lent bytes as its grid
//     H side n mark length m choice points         draws a patch on the strip, the lent bytes as its grid
//     V 0 steps mark length 0 choice points        flips a curve, whose points it writes to the lent bytes
//     X 0 n mark length m choice points            flips a patch, whose points it writes to the lent bytes
//
// There is one buffer of 262144 bytes, which keeps its bytes from case to case; lent are the first of them, as many as
// the length says. Filled byte i is first + step × i, modulo 256. Shown byte i is at place + stride × i, and 0 past the
// end. The choice is 0 for over, any other number for under. Each point is one number, 00xxyyzz in hexadecimal digits;
// they begin at number 6, and there is room for 16. Of a flip's points as many bytes are written as there is room for.
// Numbers that a case does not use are 0.
//
// Each of D L C M W P Q is called twice: with the record, and with its flip and other bytes that hold the same. The two
// agree if they answer the same, and the bytes lent to both hold the same afterwards; of accepted listings, if the two lists
// have the same cells in reverse order and the same bytes behind them. Beside G and H the main path draws the same record,
// with the same side and other bytes that hold the same. The two agree if the strip refuses with 23 or 24, or else if they
// answer the same, and the bytes lent to both hold the same afterwards. T and U are called once. The answers are
//
//     A count new marked first second          accepted
//     R number 0 marked first second           refused
//     N 0 0 marked first second                the two calls do not agree
//     F 0 0 marked first second                filled
//     S bytes bytes bytes bytes 0              shown (hexadecimal)
//     V n 0 mark first second                  flipped (hexadecimal)
//     X n m mark first second                  flipped (hexadecimal)
//     B                                        no such case
//
// where count is the number of samples, but for T and U that of the path's cells, for a check of a curve 1 if the step test
// quit and 0 if it walked, for a check of a patch 0, and for M the chosen count; new is the number of the cells that a
// drawing turned from unmarked to marked, 0 for all others; and marked, first and second say what the lent bytes of the
// first call hold afterwards (`cases::lent::holding`); C, Q and M are lent none. Of a flip n, m and mark are its own, and 256 is
// added to the mark for under.
//
// A case has 22 numbers, hence 199 bytes, and an answer five, hence 47 bytes.
#![tactic(auto)]

mod beside;
mod calls;
mod flips;
mod once;
mod twice;

ghost use Rattle.std.specs.Prelude.{◌≡◌, length};

use crate::calls::{counted, curve_checked};
use crate::twice::{with_curve, with_patch};
use both_ways::calls::{checked, drawn};
use cases::answer::Answer;
use cases::block::{Answers, answer_block};
use cases::record::number;
use cases::run::{Stop, run};
use std::io::{Stdin, Stdout};

// The buffer, and the bytes that are lent to a second call.
#[derive(Drop)]
struct Buffers<'a> {
    buffer: &'a mut [u8; 262144],
    second: &'a mut [u8; 262144],
}

fn main(rt: HostRuntime) {
    let mut buffer = [0u8; 262144];
    let mut second = [0u8; 262144];
    let mut buffers = Buffers {
        buffer: &mut buffer,
        second: &mut second,
    };
    run(rt.stdout(), rt.stderr(), || {
        answer_next(rt.stdin(), rt.stdout(), &mut buffers)
    });
}

// Answers the next 1,024 cases, or as many as are left.
fn answer_next(input: Stdin, output: Stdout, buffers: &mut Buffers) -> Result<(), Stop> {
    let mut records = [0u8; 203776];
    let mut answers = [0u8; 48128];
    answer_block::<199, 47, 5, Buffers>(input, output, &mut records, &mut answers, buffers)
}

impl Answers<199, 5> for Buffers<'_> {
    fn answer(&mut self, case: &[u8; 199]) -> Answer<5> {
        answer_case(case, self.buffer, self.second)
    }
}

// The answer to one case.
fn answer_case(
    case: &[u8; 199],
    buffer: &mut [u8; 262144],
    second: &mut [u8; 262144],
) -> Answer<5> {
    if case[0] == b'S' {
        return cases::lent::show(case, buffer);
    }
    let count = match case[0] {
        b'C' | b'M' | b'Q' => 0,
        _ => number(case, 3) as usize,
    };
    if buffer.len() < count {
        return Answer::none();
    }
    answer_lent(case, &mut buffer[..count], &mut second[..count])
}

// The answer to a case that is lent these bytes, and others for a second call.
fn answer_lent(case: &[u8; 199], lent: &mut [u8], again: &mut [u8]) -> Answer<5>
    requires { length lent.old ≡ length again.old }
{
    again.copy_from_slice(lent);
    match case[0] {
        b'F' => cases::lent::fill(case, lent),
        b'T' => once::draw_path(case, lent),
        b'U' => once::list_path(case, lent),
        b'V' => flips::flip_curve(case, lent),
        b'X' => flips::flip_patch(case, lent),
        b'C' => with_curve(case, lent, again, |side, curve, _| {
            curve_checked(curve::check_curve(side, curve))
        }),
        b'M' => with_curve(case, lent, again, |side, curve, _| {
            counted(chosen::choose_steps(side, curve))
        }),
        b'Q' => with_patch(case, lent, again, |side, patch, _| {
            checked(patch::check_patch(side, patch))
        }),
        b'D' => with_curve(case, lent, again, |side, curve, grid| {
            drawn(curve::draw_curve(side, curve, grid))
        }),
        b'W' => with_curve(case, lent, again, |side, curve, grid| {
            drawn(chosen::draw_chosen(side, curve, grid))
        }),
        b'P' => with_patch(case, lent, again, |side, patch, grid| {
            drawn(patch::draw_patch(side, patch, grid))
        }),
        b'L' => twice::list_curve(case, lent, again),
        b'G' => beside::draw_strip_curve(case, lent, again),
        b'H' => beside::draw_strip_patch(case, lent, again),
        _ => Answer::none(),
    }
}
