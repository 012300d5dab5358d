// The machine of Kaufman's FAST_CURVE and FAST_SURFACE: a cubic by its forward differences, with what surfaces and volumes
// have of it, and one axis of a drawing, the same for curves, patches and volumes. No function is open to callers: what is
// `pub` is so for the crates above.
#![tactic(auto)]

pub mod axis;
pub mod basis;
pub mod differences;
pub mod long;
