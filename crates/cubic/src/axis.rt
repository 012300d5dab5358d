// One axis of a drawing: a cubic along a parameter, beside the coordinate of the sample's cell. Everything is scaled by
// 2N; the cubic's value is the remainder, 2B - 2N × coordinate, above -N and up to N.
ghost use Rattle.std.specs.Prelude.{◌≡◌};
ghost use Rattle.cubic.specs.Axis.{start_of, row_of, settle_of, step_of};
ghost use Rattle.cubic.specs.Room.{Placed, Settles, Steps};

use crate::differences::{Cubic, Forward};

// `at` is the coordinate times the stride: 1, S and S × S are the strides of a grid, so that the three sum up to the
// byte's place, and 1 is that of a listing.
#[derive(Clone, Copy)]
pub struct Axis {
    pub at: i64,
    pub cubic: Cubic,
}

impl Axis {
    // Sample 0: the coordinate of point 0, and no remainder.
    pub fn start(stride: i64, point: i64, c: Cubic) -> Axis
        requires { Placed stride point }
        ensures { result ≡ start_of stride point c }
    {
        Axis {
            at: stride * point,
            cubic: Cubic { value: 0, ..c },
        }
    }

    // The row that starts where the walk along u stands: the same coordinate and remainder, whose sum is the value of the
    // row's first sample, and the differences along t.
    pub fn row(self, b: Cubic, c: Cubic, d: Cubic) -> Axis
        ensures { result ≡ row_of self b c d }
    {
        Axis {
            cubic: Cubic {
                value: self.cubic.value,
                d1: b.value,
                d2: c.value,
                d3: d.value,
            },
            ..self
        }
    }

    // Figure 2's decision, a half going down: the remainder against N and -N moves the coordinate up, down or not at all.
    pub fn settle(mut self, scale: i64, stride: i64) -> Axis
        requires { Settles scale stride self }
        ensures { result ≡ settle_of scale stride self }
    {
        if self.cubic.value > scale {
            self.at += stride;
            self.cubic.value -= scale + scale;
        } else if self.cubic.value <= -scale {
            self.at -= stride;
            self.cubic.value += scale + scale;
        }
        self
    }

    // The next sample: equation 8, then the decision.
    pub fn step(self, scale: i64, stride: i64) -> Axis
        requires { Steps scale stride self }
        ensures { result ≡ step_of scale stride self }
    {
        Axis {
            cubic: self.cubic.next(),
            ..self
        }
        .settle(scale, stride)
    }
}
