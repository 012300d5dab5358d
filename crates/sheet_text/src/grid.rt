// A colour cube with its side.
ghost use Rattle.std.specs.Prelude.{◌≡◌, ◌≤◌, false, IfOk, length};
ghost use Rattle.decide.specs.Refusal.{first_that};
ghost use Rattle.decide.specs.Verdict.{verdict_of};
ghost use Rattle.cube.specs.Cube.{volume};
ghost use Rattle.sheet.specs.Part.{text_order};

use decide::Refusal;

/// A side from 2 to 64, and side × side × side bytes.
#[derive(Clone, Copy)]
pub struct Cube<'a> {
    pub side: u32,
    pub bytes: &'a [u8],
    pub ghost side_in: { (2 ≤ side) × (side ≤ 64) },
    pub ghost whole: { length bytes.now ≡ volume side },
}

impl<'a> Cube<'a> {
    /// The bytes as a cube of that side. Refused: 11, 21.
    pub fn try_new(side: u32, bytes: &'a [u8]) -> Result<Self, Refusal>
        ensures verdict { verdict_of result ≡ first_that (text_order side (length bytes.now) false) }
        ensures cube { IfOk result (λ c. (c.side ≡ side) × (c.bytes.now ≡ bytes.now)) }
    {
        if side < 2 || 64 < side {
            return Err(Refusal::Side);
        }
        let s = side as usize;
        if bytes.len() != s * s * s {
            return Err(Refusal::Length);
        }
        Ok(Cube { side, bytes })
    }
}
