// What an accepted drawing answers.

/// Its number, of samples or, along a path, of cells; and that of the cells that it turned from unmarked to marked.
#[derive(Clone, Copy)]
pub struct Drawn {
    pub answer: u32,
    pub new_cells: u32,
}
