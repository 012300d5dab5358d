// Fields and lines of a stroke sheet, read from its bytes. Open to callers: `field::digits` and `field::number`. Whatever
// else is `pub` is so for the crates above.
#![tactic(auto)]

pub mod field;
pub mod line;
