// Answers of five numbers, which say what the bytes lent to a call hold afterwards; and the cases that fill or show bytes.
ghost use Rattle.std.specs.Prelude.{◌^◌, ◌<◌, ◌≤◌, length};

use crate::answer::{Answer, Digits};
use crate::digest::{Digest, eight};
use crate::record::{byte, number};

// A letter, a number, a number of new cells, and three for the lent bytes: their digest, begun with their number.
pub fn holding(letter: u8, number: u32, new_cells: u32, lent: &[u8]) -> Answer<5> {
    let held = digest(lent);
    Answer {
        letter,
        digits: Digits::Decimal,
        numbers: [
            number,
            new_cells,
            eight(held.marked),
            eight(held.first),
            eight(held.second),
        ],
    }
}

// The digest of the lent bytes, begun with their number.
pub fn digest(lent: &[u8]) -> Digest {
    Digest::begun(lent.len() as u64).extended(lent)
}

// Fills the lent bytes by the case's numbers 0 and 1: the first byte and the step.
pub fn fill(case: &[u8], lent: &mut [u8]) -> Answer<5>
    requires { 18 ≤ length case.now }
{
    crate::bytes::fill(lent, byte(case, 0), byte(case, 1));
    holding(b'F', 0, 0, lent)
}

// Shows 16 bytes from the place of the case's number 0 on, the stride of its number 1 apart.
pub fn show(case: &[u8], buffer: &[u8]) -> Answer<5>
    requires { 18 ≤ length case.now }
{
    let place = number(case, 0) as usize;
    let stride = number(case, 1) as usize;
    Answer {
        letter: b'S',
        digits: Digits::Hexadecimal,
        numbers: [
            four(buffer, place, stride),
            four(buffer, place + 4 * stride, stride),
            four(buffer, place + 8 * stride, stride),
            four(buffer, place + 12 * stride, stride),
            0,
        ],
    }
}

// Four bytes as the digits of a number of base 256, 0 past the end.
fn four(buffer: &[u8], place: usize, stride: usize) -> u32
    requires { (place < 2 ^ 40) × (stride < 2 ^ 40) }
{
    let at = |i: usize| buffer.get(i).copied().unwrap_or(0);
    u32::from_be_bytes([
        at(place),
        at(place + stride),
        at(place + 2 * stride),
        at(place + 3 * stride),
    ])
}
