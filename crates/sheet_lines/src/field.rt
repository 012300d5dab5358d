// A field of a stroke sheet: its digits and its value.
ghost use Rattle.std.specs.Prelude.{◌≡◌, true, ◌≤◌, ◌==◌, length};
ghost use Rattle.std.specs.Char.{is_ascii_digit};
ghost use Rattle.std.specs.List.{list_all, prefix_len};
ghost use Rattle.sheet.specs.Field.{are_digits, is_number, digits_of, decimal};
ghost use Rattle.sheet_lines.specs.Read.{read_field};

// The digits of a field, as the part of it after the blanks, and the empty part for a bad field, as document 01 asks.
pub fn digits(field: &[u8]) -> &[u8]
    ensures { result.now ≡ digits_of field.now }
{
    if field.len() != 5 {
        return &field[..0];
    }
    let first = blanks(field);
    let part = &field[first..];
    if is_number(part) { part } else { &field[..0] }
}

// How many blanks a field begins with.
fn blanks(field: &[u8]) -> usize
    ensures bound { result ≤ length field.now }
    ensures value { result ≡ prefix_len (λ b. b == 32) field.now }
{
    field.iter().take_while(|&&b| b == b' ').count()
}

// Digits, at least one, and no leading zero but a lone 0.
fn is_number(part: &[u8]) -> bool
    ensures { result ≡ is_number part.now }
{
    if 1 < part.len() && part[0] == b'0' {
        return false;
    }
    !part.is_empty() && are_digits(part)
}

// Every byte is a digit.
fn are_digits(part: &[u8]) -> bool
    ensures { result ≡ list_all is_ascii_digit part.now }
{
    part.iter().all(u8::is_ascii_digit)
}

// The value of a field, if it is good.
pub fn number(field: &[u8]) -> Option<u32>
    ensures { result ≡ read_field field.now }
{
    match digits(field) {
        [] => None,
        part => Some(value(part)),
    }
}

// The number that at most five digits stand for.
fn value(digits: &[u8]) -> u32
    requires digits_len_bound { length digits.now ≤ 5 }
    requires digits_value { are_digits digits.now ≡ true }
    ensures { result ≡ decimal 0 digits.now }
{
    let mut n = 0;
    for &digit in digits {
        n = 10 * n + u32::from(digit - b'0');
    }
    n
}
