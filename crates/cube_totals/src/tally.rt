// One pass over a cube, and a table of marks.
//
// A mark has two words of 64 bits: the count of its cells and the sum of their x, 32 bits each, and the sums of y and z.
// Cells of even and of odd x have words of their own, so that along a run of one mark a sum does not wait for the one
// before it: words 0 and 1 of mark m stand at 4 × m for even x, at 4 × m + 2 for odd x.
ghost use Rattle.std.specs.Prelude.{◌≡◌, ◌^◌, ◌≤◌, ◌<◌, length};
ghost use Rattle.totals.specs.Sums.{Bytes};
ghost use Rattle.cube_totals.specs.Table.{Table, Below, added, added_row, numbers_of, four_of};
ghost use Rattle.cube_totals.specs.Next.{Next};

use sheet_text::grid::Cube;

// What a mark holds: the count of its cells, and the sums of their coordinates.
#[derive(Clone, Copy)]
pub(crate) struct Total {
    pub count: u32,
    pub x: u32,
    pub y: u32,
    pub z: u32,
}

// A row of cells along x.
#[derive(Clone, Copy)]
struct Row {
    y: u64,
    z: u64,
}

impl Row {
    // The row after this one.
    fn next(self, side: u64) -> Self
        requires y_lt_side { (self.y < side) × (self.z < side) }
        requires side_bound { side ≤ 64 }
        ensures { Next side self result }
    {
        let y = self.y + 1;
        if y == side {
            Row {
                y: 0,
                z: self.z + 1,
            }
        } else {
            Row { y, z: self.z }
        }
    }
}

// The table of a cube.
pub(crate) fn tally(cube: Cube) -> [u64; 1024]
    ensures { Table cube.entry.side cube.entry.bytes.now result }
{
    let mut table = [0; 1024];
    let mut row = Row { y: 0, z: 0 };
    for marks in cube.bytes.chunks_exact(cube.side as usize) {
        add_row(marks, row, &mut table);
        row = row.next(u64::from(cube.side));
    }
    table
}

// Adds the cells of a row.
fn add_row(marks: &[u8], row: Row, table: &mut [u64; 1024])
    requires marks_len_bound { length marks.now ≤ 64 }
    requires y_bound { (row.y ≤ 64) × (row.z ≤ 64) }
    requires below { Below (2 ^ 60) table.old }
    ensures marks_are { Bytes marks.now }
    ensures table_after { table.new ≡ added_row marks.now 0 row table.old }
{
    for (x, &mark) in marks.iter().enumerate() {
        add(mark, x as u64, row, table);
    }
}

// Adds a cell to the words of its mark.
fn add(mark: u8, x: u64, row: Row, table: &mut [u64; 1024])
    requires below { Below (2 ^ 61) table.old }
    requires x_bound { (x ≤ 64) × (row.y ≤ 64) × (row.z ≤ 64) }
    ensures { table.new ≡ added mark x row.y row.z table.old }
{
    let at = 4 * usize::from(mark) + 2 * ((x % 2) as usize);
    table[at] += 1 + 4294967296 * x;
    table[at + 1] += row.y + 4294967296 * row.z;
}

// The numbers of a mark.
pub(crate) fn total_of(table: &[u64; 1024], mark: usize) -> Total
    requires below { Below (2 ^ 60) table.now }
    requires mark_bound { mark < 256 }
    ensures { four_of result ≡ numbers_of table.now mark }
{
    let at = 4 * mark;
    let first = table[at] + table[at + 2];
    let second = table[at + 1] + table[at + 3];
    Total {
        count: (first % 4294967296) as u32,
        x: (first / 4294967296) as u32,
        y: (second % 4294967296) as u32,
        z: (second / 4294967296) as u32,
    }
}
