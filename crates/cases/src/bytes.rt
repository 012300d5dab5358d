// The bytes that are lent to a call.
ghost use Rattle.cases.specs.Bytes.{FilledBy};

// Byte i becomes first + step × i, modulo 256.
pub fn fill(lent: &mut [u8], first: u8, step: u8)
    ensures { FilledBy first step lent.old lent.new }
{
    let mut byte = first;
    for b in lent.iter_mut() {
        *b = byte;
        byte = byte.wrapping_add(step);
    }
}

// Copies bytes, as many as there are and as there is room for.
pub fn copy(from: &[u8], to: &mut [u8]) {
    let count = from.len().min(to.len());
    to[..count].copy_from_slice(&from[..count]);
}
