// Flips, from bytes to bytes.
ghost use Rattle.flip.specs.Flip.{reversed};
ghost use Rattle.exports.specs.Records.{FlipsBytes, FlipsPatchBytes};

use crate::signed::refused;
use decide::Refusal;

#[unsafe(no_mangle)]
pub extern "C" fn gidzkhalu_flip_curve(points: &[u8], flipped: &mut [u8]) -> i64
    ensures { FlipsBytes 12 reversed points.now flipped.old flipped.new result }
{
    let Ok(points) = <&[u8; 12]>::try_from(points) else {
        return refused(Refusal::RecordLength);
    };
    if flipped.len() != 12 {
        return refused(Refusal::OutLength);
    }
    flip::reverse(points, flipped);
    0
}

#[unsafe(no_mangle)]
pub extern "C" fn gidzkhalu_flip_patch(
    points: &[u8],
    n: &mut u32,
    m: &mut u32,
    flipped: &mut [u8],
) -> i64
    ensures { FlipsPatchBytes points.now n.old m.old n.new m.new
        flipped.old flipped.new result }
{
    let Ok(points) = <&[u8; 48]>::try_from(points) else {
        return refused(Refusal::RecordLength);
    };
    if flipped.len() != 48 {
        return refused(Refusal::OutLength);
    }
    flip::exchange(points, flipped);
    std::mem::swap(n, m);
    0
}
