// What a set-up and a replay did, in words: a line for each refused line of the set-up, a line for each record, and a summary. Each
// function that writes asks for exactly the room of its text and answers the place after it.
#![tactic(auto)]

pub mod piece;
mod record;
pub mod setup_line;
pub mod summary;
