// Lines, cut into words, and words read as numbers and bytes.
#![tactic(auto)]

pub mod arguments;
mod bytes;
pub mod line;
pub mod number;
