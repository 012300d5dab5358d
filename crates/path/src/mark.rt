// The drawing of a path: figure 2's walk, axis by axis, with a mark after each move.
ghost use Rattle.std.specs.Prelude.{◌≡◌, ◌+◌, ◌<◌, ◌≤◌, [], ◌∷◌, map, length, if◌then◌else◌};
ghost use Rattle.decide.specs.Refusal.{accepted};
ghost use Rattle.cube.specs.Cube.{place};
ghost use Rattle.drawing.specs.Refusals.{draw_verdict};
ghost use Rattle.drawing.specs.Drawing.{marked, cells};
ghost use Rattle.drawing.specs.NewCells.{unmarked_cells};
ghost use Rattle.scan.specs.Walker.{HasPlace, place_of};
ghost use Rattle.curve.specs.Curve.{curve_of};
ghost use Rattle.path.specs.Path.{path, path_length};

use crate::step;
use curve::Curve;
use drawing::Choice;
use scan::answer::Drawn;
use scan::mark::Ink;
use scan::walker::Walker;

// Marks the cells of an accepted curve's path, over or under. Answers their number, and how many of them were unmarked before.
pub(crate) fn mark_cells(side: u32, curve: Curve, choice: Choice, grid: &mut [u8]) -> Drawn
    requires { draw_verdict side (length grid.old) (curve_of curve) ≡ accepted }
    ensures answer_value { result.answer ≡ path_length (curve_of curve) }
    ensures grid_after { result.new_cells + unmarked_cells grid.new ≡ unmarked_cells grid.old }
    ensures grid_after_2 { grid.new ≡
        marked choice curve.mark (map (place side) (path (cells (curve_of curve)))) grid.old }
{
    let h = scan::number::grid_strides(side);
    let scale = scan::number::cubed(curve.steps);
    let ink = Ink {
        mark: curve.mark,
        choice,
    };
    let mut w = curve::samples::start_walker(curve, h);
    let first = u32::from(ink.mark_cell(grid, w.place()));
    let mut drawn = Drawn {
        answer: 1,
        new_cells: first,
    };
    for _ in 0..curve.steps {
        let x_moves = step::moves(w.x, scale);
        w.x = step::advance(w.x, x_moves, scale, h.x);
        drawn = mark_moved(drawn, x_moves, w, ink, grid);
        let y_moves = step::moves(w.y, scale);
        w.y = step::advance(w.y, y_moves, scale, h.y);
        drawn = mark_moved(drawn, y_moves, w, ink, grid);
        let z_moves = step::moves(w.z, scale);
        w.z = step::advance(w.z, z_moves, scale, h.z);
        drawn = mark_moved(drawn, z_moves, w, ink, grid);
    }
    drawn
}

// Where an axis has moved, one cell more: the walker's, which gets the mark.
fn mark_moved(drawn: Drawn, moved: bool, w: Walker, ink: Ink, grid: &mut [u8]) -> Drawn
    requires has_place { HasPlace w }
    requires w_in_bounds { place_of w < length grid.old }
    requires le_mark { (1 ≤ ink.mark) × (drawn.answer ≤ 2000) × (drawn.new_cells ≤ 300000) }
    ensures answer_value { result.answer ≡ drawn.answer + (if moved then 1 else 0) }
    ensures grid_after { result.new_cells + unmarked_cells grid.new ≡ drawn.new_cells + unmarked_cells grid.old }
    ensures grid_after_2 { grid.new ≡ marked ink.choice ink.mark (if moved then place_of w ∷ [] else []) grid.old }
{
    if moved {
        let new = u32::from(ink.mark_cell(grid, w.place()));
        return Drawn {
            answer: drawn.answer + 1,
            new_cells: drawn.new_cells + new,
        };
    }
    drawn
}
