// What the programs that run stored cases share. All that is `pub` here is so for them.
//
// Cases and answers are records of text, so that they can be read and compared, and of one width in a program, so that
// the record of a number is found without a search.
#![tactic(auto)]

pub mod answer;
pub mod block;
pub mod bytes;
pub mod digest;
pub mod input;
pub mod lent;
pub mod points;
pub mod record;
pub mod run;
pub mod turns;
