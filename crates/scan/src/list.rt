// The listing of cells.
ghost use Rattle.std.specs.Prelude.{◌≡◌, map, ◌++◌, suc, ◌+◌, ◌*◌, ◌≤◌, length, drop};
ghost use Rattle.std.proofs.lemmas.List.Edits.{sets};
ghost use Rattle.drawing.specs.Drawing.{bytes};
ghost use Rattle.scan.specs.Walker.{cell_of_walker, walkers, ByteCell, OnList, coordinates};

use crate::walker::{Strides, Walker};

// Writes a cell's three bytes, x y z, from byte at on.
pub fn put_cell(list: &mut [u8], at: usize, w: Walker)
    requires byte_cell { ByteCell w }
    requires at_in_bounds { at + 3 ≤ length list.old }
    ensures { list.new ≡ sets list.old at (coordinates (cell_of_walker w)) }
{
    list[at] = w.x.at as u8;
    list[at + 1] = w.y.at as u8;
    list[at + 2] = w.z.at as u8;
}

// Lists the cells of a row: the walker's, and that of each of n steps.
pub fn list_row(start: Walker, n: u32, scale: i64, h: Strides, list: &mut [u8])
    requires { OnList n scale h start (length list.old) }
    ensures { list.new ≡
        bytes (map cell_of_walker (walkers n scale h start)) ++ drop (3 * suc n) list.old }
{
    let mut w = start;
    let mut at = 0;
    put_cell(list, at, w);
    for _ in 0..n {
        w = w.step(scale, h);
        at += 3;
        put_cell(list, at, w);
    }
}
