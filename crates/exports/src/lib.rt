// The functions for C, all open to callers; nothing else is `pub`. Each answers one signed number, a count or minus the
// refusal's number. What a drawing, a sheet and a patch's flip answer besides they write through pointers to numbers.
// include/gidzkhalu.h documents them. 51, 52, 53 and 55, for lengths, kinds and choices that can be wrong in C alone, come
// before all else.
#![tactic(auto)]

mod curves;
mod flips;
mod listings;
mod patches;
mod sheets;
mod signed;
mod solids;
mod strips;
mod swatches;
