// Hue, saturation and value, as a colour desk speaks: their refusals, and the channels that the three stand for.
// No function is open to callers: what is `pub` is so for the crates above.
#![tactic(auto)]

ghost use Rattle.std.specs.Prelude.{◌≡◌, false, T};
ghost use Rattle.decide.specs.Refusal.{first_that, refused};
ghost use Rattle.decide.specs.Verdict.{number_of, verdict_of};
ghost use Rattle.hsv.specs.Hue.{hue_in_range, hue_refusals, hsv_refusals};
ghost use Rattle.hsv.specs.Channels.{q_of, r_of, hsv_channels};

use channel::Rgb;
use decide::Refusal;

// A hue from 0 to below 6, a saturation and a value from 0 to 1.
#[derive(Clone, Copy, Debug)]
pub struct Hsv {
    pub hue: f32,
    pub saturation: f32,
    pub value: f32,
}

impl Hsv {
    // The first refusal of hue, saturation and value.
    pub fn check(self) -> Result<(), Refusal>
        ensures { verdict_of result ≡ first_that (hsv_refusals self) }
    {
        if !is_accepted(self.hue) {
            return Err(refusal(self.hue));
        }
        channel::check(self.saturation)?;
        channel::check(self.value)
    }

    // Red, green and blue from an accepted hue, a saturation and a value: the row of k, the whole part of the hue, from 0
    // to 5.
    pub fn channels(self) -> Rgb
        requires { T (hue_in_range self.hue) }
        ensures { result ≡ hsv_channels self }
    {
        let Hsv {
            hue: h,
            saturation: s,
            value: v,
        } = self;
        let p = v * (1.0 - s);
        if h < 1.0 {
            Rgb::new(v, r_of(v, s, h - 0.0), p)
        } else if h < 2.0 {
            Rgb::new(q_of(v, s, h - 1.0), v, p)
        } else if h < 3.0 {
            Rgb::new(p, v, r_of(v, s, h - 2.0))
        } else if h < 4.0 {
            Rgb::new(p, q_of(v, s, h - 3.0), v)
        } else if h < 5.0 {
            Rgb::new(r_of(v, s, h - 4.0), p, v)
        } else {
            Rgb::new(v, p, q_of(v, s, h - 5.0))
        }
    }
}

// Whether a hue is accepted. A NaN passes neither test, and minus zero both.
pub fn is_accepted(h: f32) -> bool
    ensures { result ≡ hue_in_range h }
{
    0.0 <= h && h < 6.0
}

// The refusal of a hue that is not accepted.
pub fn refusal(h: f32) -> Refusal
    requires { hue_in_range h ≡ false }
    ensures { first_that (hue_refusals h) ≡ refused (number_of result) }
{
    if h.is_finite() {
        Refusal::Hue
    } else {
        Refusal::NotFinite
    }
}

// q, which falls as f rises.
fn q_of(v: f32, s: f32, f: f32) -> f32
    ensures { result ≡ q_of v s f }
{
    v * (1.0 - s * f)
}

// r, which rises with f.
fn r_of(v: f32, s: f32, f: f32) -> f32
    ensures { result ≡ r_of v s f }
{
    v * (1.0 - s * (1.0 - f))
}
