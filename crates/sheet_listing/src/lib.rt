// The listing of a colour cube as text, in parts. Open to callers: `list_part`. Whatever else is `pub` is so for the
// crates above.
#![tactic(auto)]

mod cells;

ghost use Rattle.std.specs.Prelude.{◌≡◌, ◌+◌, ◌*◌, ◌≤◌, ◌<◌, length};
ghost use Rattle.decide.specs.Refusal.{first_that};
ghost use Rattle.sheet.specs.Part.{part, part_order};
ghost use Rattle.sheet_text.specs.Puts.{Puts};
ghost use Rattle.sheet_text.specs.Writes.{Writes};
ghost use Rattle.sheet_listing.specs.ByPlane.{ListsPlanes};

use crate::cells::put_cells;
use decide::Refusal;
use sheet_text::grid::Cube;

/// The first plane that is not listed yet, and the number of bytes written.
#[derive(Clone, Copy)]
pub struct Planes {
    pub next: usize,
    pub bytes: usize,
}

/// Writes the part of the cube's listing for count places from byte first on. Answers the number of bytes written. Refused:
/// 11, 21, 22.
pub fn list_part(
    side: u32,
    cube: &[u8],
    first: usize,
    count: usize,
    text: &mut [u8],
) -> Result<usize, Refusal>
    ensures { Writes
        (first_that (part_order side count (length cube.now) (length text.old)))
        (part side first count cube.now) text.old text.new result }
{
    let cube = Cube::try_new(side, cube)?;
    if text.len() / 21 <= count {
        return Err(Refusal::Short);
    }
    Ok(put_part(cube, first, count, text))
}

/// Writes the listing of whole planes from plane z on, while there is room for one more with every cell marked. It ends at
/// the last plane or where the room does, whichever is first.
pub fn list_planes(cube: Cube, z: usize, text: &mut [u8]) -> Planes
    requires side_bound { cube.side ≤ 40 }
    requires z_lt_side { z < cube.side }
    requires in_bounds { 33621 ≤ length text.old }
    ensures { ListsPlanes cube.entry.side cube.entry.bytes.now z text.old text.new result }
{
    let side = cube.side as usize;
    let plane = side * side;
    let room = 21 * (plane + 1);
    let mut bytes = put_part(cube, plane * z, plane, text);
    let mut next = z + 1;
    while next < side && room <= text.len() - bytes {
        bytes += put_part(cube, plane * next, plane, &mut text[bytes..]);
        next += 1;
    }
    Planes { next, bytes }
}

// The part for count places from byte first on.
fn put_part(cube: Cube, first: usize, count: usize, text: &mut [u8]) -> usize
    requires { 21 * (count + 1) ≤ length text.old }
    ensures { Puts (part cube.entry.side first count cube.entry.bytes.now) text.old text.new result }
{
    let n = count.min(cube.bytes.len().saturating_sub(first));
    let heading: &[u8] = if first == 0 {
        b"    X    Y    Z MARK\n"
    } else {
        b""
    };
    let bytes = heading.len();
    text[..bytes].copy_from_slice(heading);
    bytes + put_cells(cube, first, n, &mut text[bytes..])
}
