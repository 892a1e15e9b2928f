// The entries of the two kinds of queue, written into bytes and read from bytes.
#![tactic(auto)]

pub mod completion;
pub mod submission;
