// A value and its three forward differences. They are integers in a cubic; in a surface they are cubics along u, of the value
// at t = 0 and of its differences along t; and in a volume surfaces over u and v.
ghost use Rattle.std.specs.Prelude.{◌≡◌, ℤ};
ghost use Rattle.cubic.specs.Differences.{Every, map, Across, across, shift, first_of, next_of, steps_of};
ghost use Rattle.cubic.specs.Room.{Room, Startable};

use crate::basis::{BASIS, coefficient};

#[derive(Clone, Copy)]
pub struct Differences<T> {
    pub value: T,
    pub d1: T,
    pub d2: T,
    pub d3: T,
}

// A cubic along one parameter.
pub type Cubic = Differences<i64>;

impl<T: Copy> Differences<T> {
    // The same of each of the four.
    pub fn map<U, F: Fn(T) -> U>(self, f: F) -> Differences<U>
        requires { Every (F.pre f) self }
        ensures value { F.post f self.value result.value }
        ensures d1 { F.post f self.d1 result.d1 }
        ensures d2 { F.post f self.d2 result.d2 }
        ensures d3 { F.post f self.d3 result.d3 }
    {
        Differences {
            value: f(self.value),
            d1: f(self.d1),
            d2: f(self.d2),
            d3: f(self.d3),
        }
    }

    // The first differences along the first parameter: those from d1 on, and no fourth.
    pub fn shift(self, zero: T) -> Differences<T>
        ensures { result ≡ shift zero self }
    {
        Differences {
            value: self.d1,
            d1: self.d2,
            d2: self.d3,
            d3: zero,
        }
    }
}

// What goes forward along its last parameter: a cubic along t, a surface along u, a volume along v. Its slice is what stands
// at the index where it is: the value of a cubic, the row of a surface, which is a cubic along t, and the slice of a volume.
pub trait Forward: Copy {
    type Slice: Copy;

    ghost Starts: { (n : ℤ) (q0 q1 q2 q3 : Self.Slice) → Type 0 };

    ghost start_of: { (n : ℤ) (q0 q1 q2 q3 : Self.Slice) → Self };

    ghost slice_of: { Self → Self.Slice };

    ghost Room: { Self → Type 0 };

    ghost next_of: { Self → Self };

    ghost steps_of: { Self → Self };

    // Index 0 of n, with four control values, columns or faces.
    fn start(n: i64, q0: Self::Slice, q1: Self::Slice, q2: Self::Slice, q3: Self::Slice) -> Self
        requires { Starts n q0 q1 q2 q3 }
        ensures { result ≡ start_of n q0 q1 q2 q3 };

    fn slice(self) -> Self::Slice
        ensures { result ≡ slice_of self };

    // The next index.
    fn next(self) -> Self
        requires { Room self }
        ensures { result ≡ next_of self };

    // The first differences: the next less this one.
    fn steps(self) -> Self
        ensures { result ≡ steps_of self };
}

impl Forward for Cubic {
    type Slice = i64;

    ghost Starts = { Startable };

    ghost start_of = { first_of };

    ghost slice_of = { λ c. c.value };

    ghost Room = { Room };

    ghost next_of = { next_of };

    ghost steps_of = { steps_of };

    // The basis matrix gives the coefficients, and the rows of equation 22's matrix the value and the differences.
    fn start(n: i64, q0: i64, q1: i64, q2: i64, q3: i64) -> Cubic {
        let a3 = coefficient(BASIS[0], q0, q1, q2, q3);
        let a2 = coefficient(BASIS[1], q0, q1, q2, q3);
        let a1 = coefficient(BASIS[2], q0, q1, q2, q3);
        let a0 = coefficient(BASIS[3], q0, q1, q2, q3);
        Cubic {
            value: n * (n * (n * a0)),
            d1: a3 + n * (a2 + n * a1),
            d2: 6 * a3 + n * (2 * a2),
            d3: 6 * a3,
        }
    }

    fn slice(self) -> i64 {
        self.value
    }

    // Equation 8: three additions.
    fn next(mut self) -> Cubic {
        self.value += self.d1;
        self.d1 += self.d2;
        self.d2 += self.d3;
        self
    }

    fn steps(self) -> Cubic {
        self.shift(0)
    }
}

// A surface and a volume: each of the four goes forward.
impl<C: Forward> Forward for Differences<C> {
    type Slice = Differences<C::Slice>;

    ghost Starts = { λ n. Across (C.Starts n) };

    ghost start_of = { λ n. across (C.start_of n) };

    ghost slice_of = { map C.slice_of };

    ghost Room = { Every C.Room };

    ghost next_of = { map C.next_of };

    ghost steps_of = { map C.steps_of };

    fn start(n: i64, q0: Self::Slice, q1: Self::Slice, q2: Self::Slice, q3: Self::Slice) -> Self {
        Differences {
            value: C::start(n, q0.value, q1.value, q2.value, q3.value),
            d1: C::start(n, q0.d1, q1.d1, q2.d1, q3.d1),
            d2: C::start(n, q0.d2, q1.d2, q2.d2, q3.d2),
            d3: C::start(n, q0.d3, q1.d3, q2.d3, q3.d3),
        }
    }

    fn slice(self) -> Self::Slice {
        self.map(|c| c.slice())
    }

    fn next(self) -> Self {
        self.map(
            |c|
                requires { C.Room c }
            { c.next() },
        )
    }

    fn steps(self) -> Self {
        self.map(|c| c.steps())
    }
}
