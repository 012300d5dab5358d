// Calls made twice: with the record of a case, and with its flip. The second call is lent bytes that hold the same.
use crate::calls::{counted, curve_of, patch_of};
use both_ways::calls::held_if;
use both_ways::{Said, agree, same_answer, same_from};
use cases::answer::Answer;
use cases::record::number;
use curve::Curve;
use flip::{flip_curve, flip_patch};
use patch::Patch;

// Makes a call, by its side and curve, with a case's curve and with the flip of it.
pub(crate) fn with_curve<F: FnMut(u32, Curve, &mut [u8]) -> Said>(
    case: &[u8; 199],
    lent: &mut [u8],
    again: &mut [u8],
    call: F,
) -> Answer<5>
    requires { F.IsAlwaysCallable call }
{
    let curve = curve_of(case);
    both(number(case, 0), curve, flip_curve(curve), lent, again, call)
}

// Makes a call, by its side and patch, with a case's patch and with the flip of it.
pub(crate) fn with_patch<F: FnMut(u32, Patch, &mut [u8]) -> Said>(
    case: &[u8; 199],
    lent: &mut [u8],
    again: &mut [u8],
    call: F,
) -> Answer<5>
    requires { F.IsAlwaysCallable call }
{
    let patch = patch_of(case);
    both(number(case, 0), patch, flip_patch(patch), lent, again, call)
}

// Makes a call with a record and with its flip.
fn both<R, F: FnMut(u32, R, &mut [u8]) -> Said>(
    side: u32,
    record: R,
    flipped: R,
    lent: &mut [u8],
    again: &mut [u8],
    mut call: F,
) -> Answer<5>
    requires { F.IsAlwaysCallable call }
{
    let one = call(side, record, lent);
    let other = call(side, flipped, again);
    answered(one, other, lent, again)
}

// Lists a curve: the cells of its flip are to be the same in reverse order, and the rest of both lists as it was.
pub(crate) fn list_curve(case: &[u8; 199], list: &mut [u8], again: &mut [u8]) -> Answer<5> {
    let side = number(case, 0);
    let curve = curve_of(case);
    let one = curve::list_curve(side, curve, list);
    let other = curve::list_curve(side, flip_curve(curve), again);
    let rest = one.map_or(0, |count| 3 * count as usize);
    let both = agree(one, other, list, again) && same_from(list, again, rest);
    held_if(both, counted(one), list)
}

// The first answer, where the second is the same and the lent bytes are.
pub(crate) fn answered(one: Said, other: Said, lent: &[u8], again: &[u8]) -> Answer<5> {
    let both = same_answer(one, other) && same_from(lent, again, 0);
    held_if(both, one, lent)
}
