// One axis of a surface over two parameters, t and u, by its differences: equations 22 and 23. The first differences of
// a surface along either parameter are a surface again, so one search finds the long steps along both. A volume over three
// parameters is a surface at each index of the third. No function is open to callers: what is `pub` is so for the crates
// above.
#![tactic(auto)]

pub mod volume;

ghost use Rattle.std.specs.Prelude.{◌≡◌};
ghost use Rattle.surface.specs.Surface.{Searchable, some_long, StepsSearchable, long_steps};

use cubic::differences::{Cubic, Differences, Forward};

// Cubics along u: of the value at t = 0, and of its three differences along t. Its slice is a row: the value and the
// differences along t. It starts at row 0 of the blend of four columns, which are cubics along t, and its next is the next row.
pub type Surface = Differences<Cubic>;

const NO_CUBIC: Cubic = Cubic {
    value: 0,
    d1: 0,
    d2: 0,
    d3: 0,
};

// Some value of the surface, of so many rows and samples, is beyond 2N. The search is left at the first such value, and
// forms no sample and no row past the last: document 01's nested loops, left from inside by a label.
pub fn some_long(surface: Surface, scale: i64, rows: u32, samples: u32) -> bool
    requires { Searchable surface scale rows samples }
    ensures { result ≡ some_long surface scale rows samples }
{
    let last_row = rows - 1;
    let last = samples - 1;
    let mut rest = surface;
    let mut j = 0;
    'search: loop {
        let mut row = rest.slice();
        let mut i = 0;
        loop {
            if cubic::long::is_long(scale, row.value) {
                break 'search true;
            }
            if i == last {
                break;
            }
            row = row.next();
            i += 1;
        }
        if j == last_row {
            break false;
        }
        rest = rest.next();
        j += 1;
    }
}

// Some first difference is beyond 2N, along t in some row or along u between two rows, of a surface with n steps along t and m
// along u.
pub fn step_too_long(surface: Surface, scale: i64, n: u32, m: u32) -> bool
    requires { StepsSearchable surface scale n m }
    ensures { result ≡ long_steps surface scale n m }
{
    some_long(surface.shift(NO_CUBIC), scale, m + 1, n)
        || some_long(surface.steps(), scale, m, n + 1)
}
