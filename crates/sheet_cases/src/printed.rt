// What is printed for a sheet's answer, as a digest.
ghost use Rattle.std.specs.Prelude.{◌≤◌, ◌<◌, ◌^◌};

use cases::digest::Digest;
use decide::Refusal;
use sheet_cube::{LineRefusal, Sheet};
use sheet_text::grid::Cube;

// A listing by list_planes, or, if part is not 0, by list_part in parts of so many places; or the refusal line.
pub(crate) fn printed(
    answer: Result<Sheet, LineRefusal>,
    lent: &[u8],
    part: u32,
    text: &mut [u8; 33621],
) -> Digest {
    match answer {
        Ok(drawn) => listed(drawn.side, lent, part as usize, text),
        Err(refused) => {
            let number = u32::from(refused.refusal);
            let written = sheet_text::refusal_line(number, refused.line, text);
            after(Digest::begun(1), written, text)
        }
    }
}

// The listing of the cube that the lent bytes begin with. Empty for a side or lent bytes that no drawn sheet has.
fn listed(side: u32, lent: &[u8], part: usize, text: &mut [u8; 33621]) -> Digest
    requires { part < 2 ^ 32 }
{
    if 40 < side {
        return Digest::begun(1);
    }
    let bytes = sheet_cube::cells(side);
    if lent.len() < bytes {
        return Digest::begun(1);
    }
    let Ok(cube) = Cube::try_new(side, &lent[..bytes]) else {
        return Digest::begun(1);
    };
    if part == 0 {
        by_planes(cube, text)
    } else {
        by_parts(cube, part, text)
    }
}

// Each turn goes on by the planes that were listed.
fn by_planes(cube: Cube, text: &mut [u8; 33621]) -> Digest
    requires { cube.side ≤ 40 }
{
    let mut digest = Digest::begun(1);
    let mut z = 0;
    while z < cube.side as usize {
        let planes = sheet_listing::list_planes(cube, z, text);
        digest = after(digest, Ok(planes.bytes), text);
        z = planes.next;
    }
    digest
}

// The places go up by the part, which a `step_by` would need the same measure for.
fn by_parts(cube: Cube, part: usize, text: &mut [u8; 33621]) -> Digest
    requires { (0 < part) × (part < 2 ^ 32) }
{
    let mut digest = Digest::begun(1);
    let mut first = 0;
    while first < cube.bytes.len() {
        let written = sheet_listing::list_part(cube.side, cube.bytes, first, part, text);
        digest = after(digest, written, text);
        first += part;
    }
    digest
}

// The digest with what is written in the text after the bytes before; a refused part adds nothing.
fn after(before: Digest, written: Result<usize, Refusal>, text: &[u8]) -> Digest {
    match written {
        Ok(bytes) if bytes <= text.len() => before.extended(&text[..bytes]),
        _ => before,
    }
}
