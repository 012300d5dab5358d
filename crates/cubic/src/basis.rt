// The basis matrix, and the coefficients of a cubic.
ghost use Rattle.std.specs.Prelude.{◌≡◌};
ghost use Rattle.cubic.specs.Basis.{dot};
ghost use Rattle.cubic.specs.Room.{Small};

// Equation 6, for powers 3, 2, 1, 0 of t.
pub const BASIS: [[i64; 4]; 4] = [[-1, 3, -3, 1], [3, -6, 3, 0], [-3, 3, 0, 0], [1, 0, 0, 0]];

// A row of the matrix times the four control values: the coefficient of one power of t. (The definitions take the four values
// one by one, and so do these functions.)
pub fn coefficient(row: [i64; 4], q0: i64, q1: i64, q2: i64, q3: i64) -> i64
    requires { Small row q0 q1 q2 q3 }
    ensures { result ≡ dot row q0 q1 q2 q3 }
{
    row[0] * q0 + row[1] * q1 + row[2] * q2 + row[3] * q3
}
