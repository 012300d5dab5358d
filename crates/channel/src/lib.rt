// Channels of a swatch, one by one: the refusals of each, its coordinate, and the value half-way to another; and red, green
// and blue in turn. No function is open to callers: what is `pub` is so for the crates above.
#![tactic(auto)]

ghost use Rattle.std.specs.Prelude.{◌≡◌, false, ◌&&◌, ◌≤◌, T};
ghost use Rattle.decide.specs.Refusal.{first_that, refused};
ghost use Rattle.decide.specs.Verdict.{number_of, verdict_of};
ghost use Rattle.channel.specs.Channel.{in_range, channel_refusals};
ghost use Rattle.channel.specs.Coordinate.{coordinate_of};
ghost use Rattle.channel.specs.HalfWay.{IsHalfWayChannel};
ghost use Rattle.channel.specs.Rgb.{rgb, rgb_refusals};

use decide::Refusal;

// Three f32 channels.
#[derive(Clone, Copy, Debug)]
pub struct Rgb {
    pub red: f32,
    pub green: f32,
    pub blue: f32,
}

impl Rgb {
    pub fn new(red: f32, green: f32, blue: f32) -> Rgb
        ensures { result ≡ rgb red green blue }
    {
        Rgb { red, green, blue }
    }

    // The first refusal of red, green and blue. None is worked out for accepted ones.
    pub fn check(self) -> Result<(), Refusal>
        ensures { verdict_of result ≡ first_that (rgb_refusals self) }
    {
        if self.is_accepted() {
            return Ok(());
        }
        check(self.red)?;
        check(self.green)?;
        check(self.blue)
    }

    // Whether all three are accepted.
    fn is_accepted(self) -> bool
        ensures { result ≡ (in_range self.red && in_range self.green && in_range self.blue) }
    {
        is_accepted(self.red) && is_accepted(self.green) && is_accepted(self.blue)
    }
}

// The first refusal of one channel.
pub fn check(v: f32) -> Result<(), Refusal>
    ensures { verdict_of result ≡ first_that (channel_refusals v) }
{
    if is_accepted(v) {
        Ok(())
    } else {
        Err(refusal(v))
    }
}

// Whether a channel is accepted. A NaN passes neither test, and minus zero both.
pub fn is_accepted(v: f32) -> bool
    ensures { result ≡ in_range v }
{
    0.0 <= v && v <= 1.0
}

// The refusal of a channel that is not accepted.
pub fn refusal(v: f32) -> Refusal
    requires { in_range v ≡ false }
    ensures { first_that (channel_refusals v) ≡ refused (number_of result) }
{
    if v.is_finite() {
        Refusal::Channel
    } else {
        Refusal::NotFinite
    }
}

// The coordinate of an accepted channel, from its bits. A channel up to 1/128 is first raised to 1/128: both have the
// coordinate 0, and the exponent's field x is then 120 to 127. With the fraction's field t the raised channel is
// (2^23 + t) / 2^(150 - x), and w / 2^(149 - x) is twice its product with side - 1: rounded up and halved, it is the
// coordinate, and a half goes down.
pub fn coordinate(side: u32, v: f32) -> u8
    requires le_side { (2 ≤ side) × (side ≤ 64) }
    requires t { T (in_range v) }
    ensures { result ≡ coordinate_of side v }
{
    let raised = if v <= 0.0078125 { 0.0078125 } else { v };
    let b = f32::to_bits(raised);
    let x = b / 0x80_0000;
    let w = (0x80_0000 + b % 0x80_0000) * (side - 1);
    let c = (((w - 1) >> (149 - x)) + 1) / 2;
    c as u8
}

// The value half-way between two accepted channels.
pub fn half_way(a: f32, b: f32) -> f32
    requires t { T (in_range a) }
    requires t_2 { T (in_range b) }
    ensures { IsHalfWayChannel a b result }
{
    (a + b) * 0.5
}
