// Runs stored cases of solids: reads case records from standard input and writes an answer record for each.
//
//     F first step 0 length                                 fills the lent bytes
//     S place stride                                        shows 16 bytes of the buffer
//     D side n mark length m choice l 0 points              draws a solid, the lent bytes as its grid
//     C side n mark 0 m choice l 0 points                   checks a solid
//     K side n mark length m choice l along points          draws a solid, and beside it a curve
//     P side n mark length m choice l without points        draws a solid, and beside it a patch
//
// There is one buffer of 262144 bytes, which keeps its bytes from case to case; lent are the first of them, as many as
// the length says. Filled byte i is first + step × i, modulo 256. Shown byte i is at place + stride × i, and 0 past the
// end. The choice is 0 for over, any other number for under. Each of the 64 points is one number, 00xxyyzz in hexadecimal
// digits; they begin at number 8. Numbers that a case does not use are 0.
//
// Beside K stands the curve of the solid's points along one parameter, where the indices of the others are 0, with the
// step count of that parameter: along is 0 for t, 1 for u, any other number for v. Beside P stands the patch of its points
// along two parameters, without the third: 0 for t, 1 for u, any other number for v. Both are drawn with the side, the mark
// and the choice of the solid into other bytes that hold the same. The two calls agree if both are refused with the same
// number, or both are accepted with as many new cells, and the bytes lent to both hold the same afterwards; the numbers of
// samples, which are not the same, are not compared. The answers are
//
//     A count new marked first second          accepted
//     R number 0 marked first second           refused
//     N 0 0 marked first second                the two calls do not agree
//     F 0 0 marked first second                filled
//     S bytes bytes bytes bytes 0              shown (hexadecimal)
//     B                                        no such case
//
// where count is the number of the solid's samples, and 0 for a check; new is the number of the cells that the drawing turned
// from unmarked to marked, and 0 for a check; and marked, first and second say what the lent bytes of the solid's call hold
// afterwards (`cases::lent::holding`); C is lent none.
//
// A case has 72 numbers, hence 649 bytes, and an answer five, hence 47 bytes.
#![tactic(auto)]

mod beside;
mod calls;

ghost use Rattle.std.specs.Prelude.{◌≡◌, length};

use cases::answer::Answer;
use cases::block::{Answers, answer_block};
use cases::record::number;
use cases::run::{Stop, run};
use std::io::{Stdin, Stdout};

// The buffer, and the bytes that are lent to a second call.
#[derive(Drop)]
struct Buffers<'a> {
    buffer: &'a mut [u8; 262144],
    second: &'a mut [u8; 262144],
}

fn main(rt: HostRuntime) {
    let mut buffer = [0u8; 262144];
    let mut second = [0u8; 262144];
    let mut buffers = Buffers {
        buffer: &mut buffer,
        second: &mut second,
    };
    run(rt.stdout(), rt.stderr(), || {
        answer_next(rt.stdin(), rt.stdout(), &mut buffers)
    });
}

// Answers the next 256 cases, or as many as are left.
fn answer_next(input: Stdin, output: Stdout, buffers: &mut Buffers) -> Result<(), Stop> {
    let mut records = [0u8; 166144];
    let mut answers = [0u8; 12032];
    answer_block::<649, 47, 5, Buffers>(input, output, &mut records, &mut answers, buffers)
}

impl Answers<649, 5> for Buffers<'_> {
    fn answer(&mut self, case: &[u8; 649]) -> Answer<5> {
        answer_case(case, self.buffer, self.second)
    }
}

// The answer to one case.
fn answer_case(
    case: &[u8; 649],
    buffer: &mut [u8; 262144],
    second: &mut [u8; 262144],
) -> Answer<5> {
    match case[0] {
        b'S' => return cases::lent::show(case, buffer),
        b'C' => return calls::check_solid(case),
        _ => {}
    }
    let count = number(case, 3) as usize;
    if buffer.len() < count {
        return Answer::none();
    }
    answer_lent(case, &mut buffer[..count], &mut second[..count])
}

// The answer to a case that is lent these bytes, and others for a second call.
fn answer_lent(case: &[u8; 649], lent: &mut [u8], again: &mut [u8]) -> Answer<5>
    requires { length lent.old ≡ length again.old }
{
    match case[0] {
        b'F' => cases::lent::fill(case, lent),
        b'D' => calls::draw_solid(case, lent),
        b'K' | b'P' => {
            again.copy_from_slice(lent);
            beside::draw_both(case, lent, again)
        }
        _ => Answer::none(),
    }
}
