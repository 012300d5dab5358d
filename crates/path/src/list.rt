// The listing of a path: figure 2's walk, axis by axis, with a cell listed after each move; and the walk that counts the cells.
ghost use Rattle.std.specs.Prelude.{◌≡◌, ◌+◌, ◌*◌, ◌<◌, ◌≤◌, [], ◌++◌, length, drop, if◌then◌else◌};
ghost use Rattle.std.proofs.lemmas.List.Edits.{sets};
ghost use Rattle.decide.specs.Refusal.{accepted};
ghost use Rattle.drawing.specs.Refusals.{check_verdict};
ghost use Rattle.drawing.specs.Drawing.{bytes, cells};
ghost use Rattle.scan.specs.Walker.{ByteCell, cell_of_walker, coordinates};
ghost use Rattle.curve.specs.Curve.{curve_of};
ghost use Rattle.path.specs.Path.{path, path_length, MovesOf};

use crate::step;
use curve::Curve;
use scan::walker::{Strides, Walker};

// The number of the path's cells, by a walk without writes, axis by axis.
pub(crate) fn count_cells(side: u32, curve: Curve) -> u32
    requires { check_verdict side (curve_of curve) ≡ accepted }
    ensures { result ≡ path_length (curve_of curve) }
{
    1 + count_moves(side, curve, 0) + count_moves(side, curve, 1) + count_moves(side, curve, 2)
}

// How often one axis moves, by its number.
fn count_moves(side: u32, curve: Curve, a: usize) -> u32
    requires curve_value { check_verdict side (curve_of curve) ≡ accepted }
    requires a_bound { a < 3 }
    ensures { MovesOf (curve_of curve) a result }
{
    let scale = scan::number::cubed(curve.steps);
    let mut axis = curve::samples::start_axis(curve, a, 1);
    let mut moves = 0;
    for _ in 0..curve.steps {
        let moved = step::moves(axis, scale);
        axis = step::advance(axis, moved, scale, 1);
        moves += u32::from(moved);
    }
    moves
}

// Lists the cells of an accepted curve's path. Answers their number.
pub(crate) fn list_cells(side: u32, curve: Curve, list: &mut [u8]) -> u32
    requires curve_value { check_verdict side (curve_of curve) ≡ accepted }
    requires curve_in_bounds { 3 * path_length (curve_of curve) ≤ length list.old }
    ensures value { result ≡ path_length (curve_of curve) }
    ensures list_after { list.new ≡
        bytes (path (cells (curve_of curve))) ++ drop (3 * path_length (curve_of curve)) list.old }
{
    let h = Strides { x: 1, y: 1, z: 1 };
    let scale = scan::number::cubed(curve.steps);
    let mut w = curve::samples::start_walker(curve, h);
    scan::list::put_cell(list, 0, w);
    let mut cells = 1;
    for _ in 0..curve.steps {
        let x_moves = step::moves(w.x, scale);
        w.x = step::advance(w.x, x_moves, scale, h.x);
        cells = list_moved(cells, x_moves, w, list);
        let y_moves = step::moves(w.y, scale);
        w.y = step::advance(w.y, y_moves, scale, h.y);
        cells = list_moved(cells, y_moves, w, list);
        let z_moves = step::moves(w.z, scale);
        w.z = step::advance(w.z, z_moves, scale, h.z);
        cells = list_moved(cells, z_moves, w, list);
    }
    cells
}

// Where an axis has moved, one cell more: the walker's, listed behind the cells so far.
fn list_moved(cells: u32, moved: bool, w: Walker, list: &mut [u8]) -> u32
    requires byte_cell { ByteCell w }
    requires cells_bound { (cells ≤ 2000) × (3 * (cells + (if moved then 1 else 0)) ≤ length list.old) }
    ensures value { result ≡ cells + (if moved then 1 else 0) }
    ensures list_after { list.new ≡
        sets list.old (3 * cells) (if moved then coordinates (cell_of_walker w) else []) }
{
    if moved {
        scan::list::put_cell(list, 3 * cells as usize, w);
        return cells + 1;
    }
    cells
}
