// The colour cube, the objects drawn into it, and their refusals: definitions in specs/, laws in proofs/.
#![tactic(auto)]

ghost use Rattle.std.specs.Prelude.{◌≡◌, ◌<◌};
ghost use Rattle.drawing.specs.Object.{offset};
ghost use Rattle.drawing.specs.Axis.{axis_of};
ghost use Rattle.drawing.specs.ChoiceNumber.{choice_at};

use decide::Refusal;

// Whether a drawing writes its mark over the marks that it meets, or goes under them.
#[derive(Clone, Copy)]
pub enum Choice {
    Over,
    Under,
}

// As C passes it: 0 is over and 1 under. Refused: 55.
impl TryFrom<u32> for Choice {
    type Error = Refusal;

    ghost try_from_gives = { λ number r. r ≡ choice_at number };

    fn try_from(number: u32) -> Result<Self, Refusal> {
        match number {
            0 => Ok(Choice::Over),
            1 => Ok(Choice::Under),
            _ => Err(Refusal::Choice),
        }
    }
}

/// The axes, in the order in which a point has its coordinates.
#[derive(Clone, Copy)]
pub enum Axis {
    X,
    Y,
    Z,
}

impl Axis {
    /// Where the axis stands among a point's three coordinates.
    #[tactic(auto, unfolding(crate::specs::Object::offset))]
    pub fn offset(self) -> usize
        ensures value { result ≡ offset (axis_of self) }
        ensures below { result < 3 }
    {
        self as usize
    }
}
