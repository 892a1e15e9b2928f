// A queue's ring on plain numbers and bytes: its slots, the doorbell checks, and the reader of a completion ring.
#![tactic(auto)]

pub mod doorbell;
pub mod reader;
pub mod slots;
