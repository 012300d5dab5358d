// The writing of cells.
ghost use Rattle.std.specs.Prelude.{◌≡◌, map, ◌+◌, ◌≤◌, ◌<◌, eqb, length, get_or, set};
ghost use Rattle.drawing.specs.Drawing.{written, marked};
ghost use Rattle.drawing.specs.NewCells.{unmarked_cells};
ghost use Rattle.scan.specs.Walker.{place_of, walkers, OnGrid};

use crate::walker::{Strides, Walker};
use drawing::Choice;

// What is written: the mark, over or under.
#[derive(Clone, Copy)]
pub struct Ink {
    pub mark: u8,
    pub choice: Choice,
}

impl Ink {
    // Writes the mark in the cell at a byte of the grid, and tells whether the cell was unmarked before.
    pub fn mark_cell(self, grid: &mut [u8], at: usize) -> bool
        requires { at < length grid.old }
        ensures value { result ≡ eqb (get_or grid.old at 0) 0 }
        ensures grid_after { grid.new ≡
            set grid.old at (written self.choice self.mark (get_or grid.old at 0)) }
    {
        let held = grid[at];
        match self.choice {
            Choice::Over => grid[at] = self.mark,
            Choice::Under => {
                if held == 0 {
                    grid[at] = self.mark;
                }
            }
        }
        held == 0
    }

    // Marks the cells of a row: the walker's, and that of each of n steps. Answers how many of them were unmarked before, a
    // cell that several samples share once.
    fn mark_walk(self, start: Walker, n: u32, scale: i64, h: Strides, grid: &mut [u8]) -> u32
        requires on_grid { OnGrid n scale h start (length grid.old) }
        requires n_bound { n ≤ 512 }
        requires le_mark { 1 ≤ self.mark }
        ensures grid_after { result + unmarked_cells grid.new ≡ unmarked_cells grid.old }
        ensures grid_after_2 { grid.new ≡
            marked self.choice self.mark (map place_of (walkers n scale h start)) grid.old }
    {
        let mut w = start;
        let mut new_cells = u32::from(self.mark_cell(grid, w.place()));
        for _ in 0..n {
            w = w.step(scale, h);
            new_cells += u32::from(self.mark_cell(grid, w.place()));
        }
        new_cells
    }

    // The same, with the choice told once, outside the loop, which is compiled with each.
    pub fn mark_row(self, start: Walker, n: u32, scale: i64, h: Strides, grid: &mut [u8]) -> u32
        requires on_grid { OnGrid n scale h start (length grid.old) }
        requires n_bound { n ≤ 512 }
        requires le_mark { 1 ≤ self.mark }
        ensures grid_after { result + unmarked_cells grid.new ≡ unmarked_cells grid.old }
        ensures grid_after_2 { grid.new ≡
            marked self.choice self.mark (map place_of (walkers n scale h start)) grid.old }
    {
        let over = Ink {
            choice: Choice::Over,
            ..self
        };
        let under = Ink {
            choice: Choice::Under,
            ..self
        };
        match self.choice {
            Choice::Over => over.mark_walk(start, n, scale, h, grid),
            Choice::Under => under.mark_walk(start, n, scale, h, grid),
        }
    }
}
