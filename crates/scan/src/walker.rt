// The machine on three axes, from sample to sample of a curve or of a row.
ghost use Rattle.std.specs.Prelude.{◌≡◌};
ghost use Rattle.scan.specs.Walker.{StepsAll, step_all, HasPlace, place_of};

use crate::xyz::Xyz;
use cubic::axis::Axis;

// What a coordinate weighs in a byte's place: 1, S and S × S in a grid, and 1 on every axis in a listing.
pub type Strides = Xyz<i64>;

pub type Walker = Xyz<Axis>;

impl Xyz<Axis> {
    // The next sample.
    pub fn step(self, scale: i64, h: Strides) -> Walker
        requires { StepsAll scale h self }
        ensures { result ≡ step_all scale h self }
    {
        self.with(h, |axis, stride| axis.step(scale, stride))
    }

    // The byte's place: the sum of the three positions.
    pub fn place(self) -> usize
        requires { HasPlace self }
        ensures { result ≡ place_of self }
    {
        (self.x.at + self.y.at + self.z.at) as usize
    }
}
