// Swatches: colours given as f32 channels, or as hue, saturation and value, which become cells of the colour cube or are
// mixed half-way. Open to callers: `to_cell` and `half_way`, the only functions that are `pub`.
#![tactic(auto)]

ghost use Rattle.std.specs.Prelude.{◌≡◌};
ghost use Rattle.decide.specs.Refusal.{first_that, outcome};
ghost use Rattle.decide.specs.Verdict.{outcome_of};
ghost use Rattle.swatch.specs.Swatch.{channels_of, swatch_refusals};
ghost use Rattle.swatch.specs.ToCell.{CellSays};
ghost use Rattle.swatch.specs.HalfWay.{HalfWaySays};

use channel::Rgb;
use decide::Refusal;
use hsv::Hsv;

// Three channels, a grey that stands for three equal ones, or hue, saturation and value.
#[derive(Clone, Copy, Debug)]
pub enum Swatch {
    Color(Rgb),
    Grey(f32),
    Hue(Hsv),
}

// A cell of the colour cube.
#[derive(Clone, Copy, Debug, PartialEq, Eq)]
pub struct Cell {
    pub x: u8,
    pub y: u8,
    pub z: u8,
}

// The cell of a swatch in the cube of the given side. Refused: 11 for the side, then the swatch's number: 31 or 32 for red,
// green and blue, or 31 or 33 for a hue and 31 or 32 for its saturation and value. A grey's one coordinate is worked out
// once.
pub fn to_cell(side: u32, swatch: Swatch) -> Result<Cell, Refusal>
    ensures { CellSays side swatch result }
{
    if side < 2 || 64 < side {
        return Err(Refusal::Side);
    }
    if let Swatch::Grey(grey) = swatch {
        channel::check(grey)?;
        let v = channel::coordinate(side, grey);
        return Ok(Cell { x: v, y: v, z: v });
    }
    let c = swatch.channels()?;
    Ok(Cell {
        x: channel::coordinate(side, c.red),
        y: channel::coordinate(side, c.green),
        z: channel::coordinate(side, c.blue),
    })
}

// The swatch half-way between two. Refused: the number of the first, then of the second.
pub fn half_way(a: Swatch, b: Swatch) -> Result<Rgb, Refusal>
    ensures { HalfWaySays a b result }
{
    let first = a.channels()?;
    let second = b.channels()?;
    Ok(Rgb {
        red: channel::half_way(first.red, second.red),
        green: channel::half_way(first.green, second.green),
        blue: channel::half_way(first.blue, second.blue),
    })
}

impl Swatch {
    // The three channels that a swatch stands for, or its first refusal. A grey's one channel is tried once.
    #[inline(always)]
    fn channels(self) -> Result<Rgb, Refusal>
        ensures { outcome_of result ≡ outcome (first_that (swatch_refusals self)) (channels_of self) }
    {
        match self {
            Swatch::Color(c) => {
                c.check()?;
                Ok(c)
            }
            Swatch::Grey(g) => {
                channel::check(g)?;
                Ok(Rgb::new(g, g, g))
            }
            Swatch::Hue(w) => {
                w.check()?;
                Ok(w.channels())
            }
        }
    }
}
