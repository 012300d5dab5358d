// Case records: a letter, then numbers of eight hexadecimal digits, a blank between two, and a line feed. Number k
// begins at byte 9 k + 1, and a record of n numbers has 9 n + 1 bytes.
ghost use Rattle.std.specs.Prelude.{◌≡◌, ◌↔◌, ◌+◌, ◌*◌, ◌%◌, ◌<◌, ◌≤◌, IsTrue, length};
ghost use Rattle.cases.specs.Record.{IsDigit, Stands, Formed, digit_of, value_at};

// Whether the bytes after the letter stand in their places.
pub fn is_case(case: &[u8]) -> bool
    requires { 1 < length case.now }
    ensures { IsTrue result ↔ Formed case.now }
{
    let last = case.len() - 1;
    for i in 1..last {
        if !stands(case[i], i) {
            return false;
        }
    }
    case[last] == b'\n'
}

fn stands(b: u8, i: usize) -> bool
    ensures { IsTrue result ↔ Stands b i }
{
    if i % 9 == 0 { b == b' ' } else { is_digit(b) }
}

fn is_digit(b: u8) -> bool
    ensures { IsTrue result ↔ IsDigit b }
{
    matches!(b, b'0'..=b'9' | b'a'..=b'f')
}

// The case's number k.
pub fn number(case: &[u8], k: usize) -> u32
    requires { 9 * k + 9 ≤ length case.now }
    ensures { result ≡ value_at case.now (9 * k + 1) 8 }
{
    let at = 9 * k + 1;
    let mut value = 0;
    for i in 0..8 {
        value = value * 16 + digit(case[at + i]);
    }
    value
}

// The last eight bits of the case's number k.
pub fn byte(case: &[u8], k: usize) -> u8
    requires { 9 * k + 9 ≤ length case.now }
    ensures { result ≡ value_at case.now (9 * k + 1) 8 % 256 }
{
    (number(case, k) % 256) as u8
}

// The value of a hexadecimal digit, and 0 for any other byte.
fn digit(b: u8) -> u32
    ensures { (result ≡ digit_of b) × (result ≤ 15) }
{
    match b {
        b'0'..=b'9' => u32::from(b - b'0'),
        b'a'..=b'f' => u32::from(b - b'a') + 10,
        _ => 0,
    }
}
