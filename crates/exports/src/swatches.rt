// Swatches.
ghost use Rattle.std.specs.Prelude.{◌≡◌, not, T};
ghost use Rattle.std.specs.Float.Ieee.{is_nan};
ghost use Rattle.exports.specs.Swatches.{swatch_of, swatch_at, channel_bytes, CellBytes, MixBytes};

use crate::signed::refused;
use channel::Rgb;
use decide::Refusal;
use hsv::Hsv;
use swatch::Swatch;

// Kind 0 is a colour, kind 1 a grey, which is the first number, and kind 2 a hue. Refused: 53.
fn swatch_of(kind: u32, a: f32, b: f32, c: f32) -> Result<Swatch, Refusal>
    ensures { result ≡ swatch_at kind a b c }
{
    match kind {
        0 => Ok(Swatch::Color(Rgb {
            red: a,
            green: b,
            blue: c,
        })),
        1 => Ok(Swatch::Grey(a)),
        2 => Ok(Swatch::Hue(Hsv {
            hue: a,
            saturation: b,
            value: c,
        })),
        _ => Err(Refusal::Kind),
    }
}

#[unsafe(no_mangle)]
pub extern "C" fn gidzkhalu_to_cell(
    side: u32,
    kind: u32,
    a: f32,
    b: f32,
    c: f32,
    cell: &mut [u8],
) -> i64
    ensures { CellBytes side kind (swatch_of kind a b c) cell.old cell.new result }
{
    let Ok(swatch) = swatch_of(kind, a, b, c) else {
        return refused(Refusal::Kind);
    };
    if cell.len() != 3 {
        return refused(Refusal::OutLength);
    }
    match swatch::to_cell(side, swatch) {
        Ok(found) => {
            cell[0] = found.x;
            cell[1] = found.y;
            cell[2] = found.z;
            0
        }
        Err(refusal) => refused(refusal),
    }
}

#[unsafe(no_mangle)]
pub extern "C" fn gidzkhalu_half_way(
    kind: u32,
    a: f32,
    b: f32,
    c: f32,
    kind2: u32,
    a2: f32,
    b2: f32,
    c2: f32,
    channels: &mut [u8],
) -> i64
    ensures { MixBytes kind kind2 (swatch_of kind a b c) (swatch_of kind2 a2 b2 c2)
        channels.old channels.new result }
{
    let Ok(first) = swatch_of(kind, a, b, c) else {
        return refused(Refusal::Kind);
    };
    let Ok(second) = swatch_of(kind2, a2, b2, c2) else {
        return refused(Refusal::Kind);
    };
    if channels.len() != 12 {
        return refused(Refusal::OutLength);
    }
    match swatch::half_way(first, second) {
        Ok(mixed) => {
            channels[..4].copy_from_slice(&channel_bytes(mixed.red));
            channels[4..8].copy_from_slice(&channel_bytes(mixed.green));
            channels[8..].copy_from_slice(&channel_bytes(mixed.blue));
            0
        }
        Err(refusal) => refused(refusal),
    }
}

// The four bytes of a channel, the low byte first.
fn channel_bytes(v: f32) -> [u8; 4]
    requires { T (not (is_nan v)) }
    ensures { result ≡ channel_bytes v }
{
    v.to_bits().to_le_bytes()
}
