// A number in columns.
ghost use Rattle.std.specs.Prelude.{◌≡◌, ◌<◌, length};
ghost use Rattle.sheet.specs.Field.{in_columns};
ghost use Rattle.sheet_text.specs.Column.{last_of, column_of};

/// Writes a number, right-justified with blanks before it, into so many columns: its last digit in the last, and before it,
/// from the last to the first, the last digit of what is left.
pub fn put_columns(v: u32, columns: &mut [u8])
    requires { 0 < length columns.old }
    ensures { columns.new ≡ in_columns (length columns.old) v }
{
    let last = columns.len() - 1;
    let mut rest = v / 10;
    for i in (0..last).rev() {
        columns[i] = column(rest);
        rest /= 10;
    }
    columns[last] = digit(v);
}

// The last digit, or a blank where no digit is left.
fn column(v: u32) -> u8
    ensures { result ≡ column_of v }
{
    if v == 0 { b' ' } else { digit(v) }
}

fn digit(v: u32) -> u8
    ensures { result ≡ last_of v }
{
    b'0' + (v % 10) as u8
}
