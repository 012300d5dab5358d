// Scan conversion, what curves, patches and solids share: the machine on three axes, the writing of cells, the refusals before
// the step test, and the answers. No function is open to callers: what is `pub` is so for the crates above.
#![tactic(auto)]

pub mod answer;
pub mod list;
pub mod mark;
pub mod number;
pub mod refusal;
pub mod walker;
pub mod xyz;
