// Runs stored cases of swatches: reads case records from standard input and writes an answer record for each.
//
//     C side swatch                         the cell of a swatch
//     H swatch swatch                       half-way between two swatches
//
// A swatch is its kind and three numbers, each the bit pattern of an f32: 0 red green blue, 1 grey and twice 0, or 2 hue
// saturation value. Numbers that a case does not use are 0. The answers are
//
//     R number                              refused (decimal)
//     C x y z                               a cell (decimal)
//     H red green blue                      the half-way swatch (bit patterns)
//     B                                     no such case
//
// A case has eight numbers, hence 73 bytes, and an answer three, hence 29 bytes.
#![tactic(auto)]

ghost use Rattle.std.specs.Prelude.{◌≡◌, ◌≤◌};
ghost use Rattle.std.specs.Float.{binary32};
ghost use Rattle.std.specs.Float.Ieee.{of_bits, to_bits};

use cases::answer::{Answer, Digits};
use cases::block::{Answers, answer_block};
use cases::record::number;
use cases::run::{Stop, run};
use channel::Rgb;
use hsv::Hsv;
use std::io::{Stdin, Stdout};
use swatch::Swatch;

fn main(rt: HostRuntime) {
    run(rt.stdout(), rt.stderr(), || {
        answer_next(rt.stdin(), rt.stdout())
    });
}

// Answers the next 1,024 cases, or as many as are left.
fn answer_next(input: Stdin, output: Stdout) -> Result<(), Stop> {
    let mut records = [0u8; 74752];
    let mut answers = [0u8; 29696];
    answer_block::<73, 29, 3, Swatches>(input, output, &mut records, &mut answers, &mut Swatches)
}

// What answers the cases.
#[derive(Clone, Copy)]
struct Swatches;

impl Answers<73, 3> for Swatches {
    fn answer(&mut self, case: &[u8; 73]) -> Answer<3> {
        answer_to(case).unwrap_or(Answer::none())
    }
}

// The answer to a case, if there is such a case.
fn answer_to(case: &[u8; 73]) -> Option<Answer<3>> {
    match case[0] {
        b'C' => Some(to_cell(number(case, 0), swatch_at(case, 1)?)),
        b'H' => Some(half_way(swatch_at(case, 0)?, swatch_at(case, 4)?)),
        _ => None,
    }
}

fn to_cell(side: u32, swatch: Swatch) -> Answer<3> {
    match swatch::to_cell(side, swatch) {
        Ok(cell) => Answer {
            letter: b'C',
            digits: Digits::Decimal,
            numbers: [cell.x, cell.y, cell.z].map(u32::from),
        },
        Err(refusal) => refused(u32::from(refusal)),
    }
}

fn half_way(a: Swatch, b: Swatch) -> Answer<3> {
    match swatch::half_way(a, b) {
        Ok(mixed) => Answer {
            letter: b'H',
            digits: Digits::Hexadecimal,
            numbers: [mixed.red, mixed.green, mixed.blue].map(bits),
        },
        Err(refusal) => refused(u32::from(refusal)),
    }
}

fn refused(number: u32) -> Answer<3> {
    Answer {
        letter: b'R',
        digits: Digits::Decimal,
        numbers: [number, 0, 0],
    }
}

// The swatch whose kind is the case's number k, if there is such a kind.
fn swatch_at(case: &[u8; 73], k: usize) -> Option<Swatch>
    requires { k ≤ 4 }
{
    let a = channel(number(case, k + 1));
    let b = channel(number(case, k + 2));
    let c = channel(number(case, k + 3));
    match number(case, k) {
        0 => Some(Swatch::Color(Rgb::new(a, b, c))),
        1 => Some(Swatch::Grey(a)),
        2 => Some(Swatch::Hue(Hsv {
            hue: a,
            saturation: b,
            value: c,
        })),
        _ => None,
    }
}

// The f32 of a bit pattern, with one NaN for all NaN patterns.
fn channel(bits: u32) -> f32
    ensures { result ≡ of_bits binary32 bits }
{
    if 0x7f80_0000 < bits % 0x8000_0000 {
        f32::NAN
    } else {
        f32::from_bits(bits)
    }
}

// The bit pattern of an f32, with one pattern for NaN.
fn bits(v: f32) -> u32
    ensures { result ≡ to_bits binary32 v }
{
    if v.is_nan() { 0x7fc0_0000 } else { v.to_bits() }
}
