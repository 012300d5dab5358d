// Tests that compute, and what they decide of a call: definitions in specs/, their meaning in words in proofs/.
#![tactic(auto)]

ghost use Rattle.std.specs.Prelude.{◌≡◌};
ghost use Rattle.decide.specs.Verdict.{number_of};

/// Why a call is refused. Each case is one of the documents' refusal numbers.
#[derive(Clone, Copy, Debug, PartialEq, Eq)]
pub enum Refusal {
    /// A side outside 2 to 64.
    Side = 11,
    /// A mark that is 0, or in a sheet above 255.
    Mark = 12,
    /// A step count outside its range.
    Steps = 13,
    /// A coordinate that is not below the side.
    Coordinate = 14,
    /// Two neighbouring samples more than one cell apart on some axis.
    LongStep = 15,
    /// A grid or a cube that is not side³ bytes, or a sheet's buffer that is not 64000.
    Length = 21,
    /// A list or a text that is too short.
    Short = 22,
    /// On the strip: a side of 18 to 64.
    StripSide = 23,
    /// On the strip: a step count above 64 that 13 lets pass.
    StripSteps = 24,
    /// A channel, hue, saturation or value that is infinite or no number.
    NotFinite = 31,
    /// A channel, saturation or value below 0 or above 1.
    Channel = 32,
    /// A hue below 0, or 6 or above.
    Hue = 33,
    /// A line of wrong length, a missing line feed, or no line 1.
    Line = 41,
    /// A bad field.
    Field = 42,
    /// A sheet's side of 41 to 64.
    SheetSide = 43,
    /// A byte after a sheet's 200th curve line.
    PastLastLine = 44,
    /// From C: a record of another length than its kind's.
    RecordLength = 51,
    /// From C: a buffer for an answer of another length than it should have.
    OutLength = 52,
    /// From C: a kind of swatch that does not exist.
    Kind = 53,
    /// Of the refusal line: a number or a line above 99999.
    Number = 54,
    /// From C: a choice that does not exist.
    Choice = 55,
}

impl From<Refusal> for u32 {
    ghost from_gives = { λ refusal number. number ≡ number_of refusal };

    fn from(refusal: Refusal) -> u32 {
        refusal as u32
    }
}
