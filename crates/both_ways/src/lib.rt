// Whether two calls agree: with a record and with its flip, on the strip and on the main path, or with a solid and with a curve
// or a patch. What is `pub` here is so for drawing_cases and solid_cases.
#![tactic(auto)]

pub mod calls;

ghost use Rattle.std.specs.Prelude.{◌↔◌, ◌≡◌, ◌+◌, ◌≤◌, T, length};
ghost use Rattle.flip.specs.Listings.{Agree, Reversed, SameCell};
ghost use Rattle.both_ways.specs.Bytes.{SameFrom};

use decide::Refusal;

/// What a call answers: a number, and the number of new cells.
pub type Said = Result<(u32, u32), Refusal>;

/// Whether two calls answer the same.
pub fn same_answer(one: Said, other: Said) -> bool
    ensures { T result ↔ (one ≡ other) }
{
    one == other
}

/// Whether as many bytes are lent to both, and the same from a place on.
pub fn same_from(one: &[u8], other: &[u8], from: usize) -> bool
    ensures { T result ↔ SameFrom from one.now other.now }
{
    let rest = from.min(one.len());
    one.len() == other.len() && one[rest..] == other[rest..]
}

/// Whether two listings have the same refusal, or the same cells in reverse order.
pub fn agree(
    one: Result<u32, Refusal>,
    other: Result<u32, Refusal>,
    list: &[u8],
    back: &[u8],
) -> bool
    ensures { T result ↔ Agree list.now back.now one other }
{
    match (one, other) {
        (Ok(n), Ok(m)) => n == m && is_reversed(list, back, n as usize),
        (Err(d), Err(e)) => d == e,
        _ => false,
    }
}

// Whether both lists begin with so many cells, the same in reverse order. By index, as the contract names the cells.
fn is_reversed(list: &[u8], back: &[u8], count: usize) -> bool
    ensures { T result ↔ Reversed count list.now back.now }
{
    if list.len() / 3 < count || back.len() / 3 < count {
        return false;
    }
    for i in 0..count {
        if !same_cell(list, 3 * i, back, 3 * (count - 1 - i)) {
            return false;
        }
    }
    true
}

// Whether the cells of two lists are the same, each from its byte on.
fn same_cell(list: &[u8], at: usize, back: &[u8], place: usize) -> bool
    requires { (at + 3 ≤ length list.now) × (place + 3 ≤ length back.now) }
    ensures { T result ↔ SameCell list.now at back.now place }
{
    list[at..at + 3] == back[place..place + 3]
}
