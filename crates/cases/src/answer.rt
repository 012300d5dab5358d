// Answer records: a letter, then numbers of eight digits, each after a blank, and a line feed.
ghost use Rattle.std.specs.Prelude.{◌≡◌, ◌+◌, ◌*◌, ◌<◌, ◌≤◌, length};

// The digits in which numbers are written.
#[derive(Clone, Copy, Debug, PartialEq, Eq)]
pub enum Digits {
    Decimal,
    Hexadecimal,
}

impl Digits {
    fn base(self) -> u32
        ensures { (0 < result) × (result ≤ 16) }
    {
        match self {
            Digits::Decimal => 10,
            Digits::Hexadecimal => 16,
        }
    }
}

// An answer's letter and numbers.
#[derive(Clone, Copy)]
pub struct Answer<const N: usize> {
    pub letter: u8,
    pub digits: Digits,
    pub numbers: [u32; N],
}

impl<const N: usize> Answer<N> {
    // The answer to a record that is no case.
    pub fn none() -> Answer<N> {
        Answer {
            letter: b'B',
            digits: Digits::Decimal,
            numbers: [0; N],
        }
    }

    // Writes the answer's record.
    pub fn put(&self, record: &mut [u8])
        requires { length record.old ≡ 9 * N + 2 }
    {
        let base = self.digits.base();
        let (fields, _) = record[1..].as_chunks_mut::<9>();
        for (n, field) in self.numbers.iter().zip(fields) {
            put_number(*n, base, field);
        }
        record[0] = self.letter;
        record[9 * N + 1] = b'\n';
    }
}

// Writes a blank and the last eight digits of a number.
fn put_number(n: u32, base: u32, field: &mut [u8; 9])
    requires { (0 < base) × (base ≤ 16) }
{
    let mut rest = n;
    for digit in field[1..].iter_mut().rev() {
        *digit = b"0123456789abcdef"[(rest % base) as usize];
        rest /= base;
    }
    field[0] = b' ';
}
