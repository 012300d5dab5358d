// The flip of a case's curve or patch.
use crate::calls::{curve_of, patch_of};
use cases::answer::{Answer, Digits};
use cases::bytes::copy;
use cases::digest::eight;
use cases::lent::digest;
use drawing::Choice;

// Writes the points of a curve's flip to the lent bytes.
pub(crate) fn flip_curve(case: &[u8; 199], lent: &mut [u8]) -> Answer<5> {
    let flipped = flip::flip_curve(curve_of(case));
    copy(&flipped.points, lent);
    let mark = marked(flipped.mark, flipped.choice);
    flipped_to(b'V', flipped.steps, 0, mark, lent)
}

// Writes the points of a patch's flip to the lent bytes.
pub(crate) fn flip_patch(case: &[u8; 199], lent: &mut [u8]) -> Answer<5> {
    let flipped = flip::flip_patch(patch_of(case));
    copy(&flipped.points, lent);
    let mark = marked(flipped.mark, flipped.choice);
    flipped_to(b'X', flipped.n, flipped.m, mark, lent)
}

// A flip's counts, mark and choice, and what the lent bytes hold.
fn flipped_to(letter: u8, n: u32, m: u32, mark: u32, lent: &[u8]) -> Answer<5> {
    let held = digest(lent);
    Answer {
        letter,
        digits: Digits::Hexadecimal,
        numbers: [n, m, mark, eight(held.first), eight(held.second)],
    }
}

// Mark and choice as one number, 256 more for under.
fn marked(mark: u8, choice: Choice) -> u32 {
    match choice {
        Choice::Over => u32::from(mark),
        Choice::Under => 256 + u32::from(mark),
    }
}
