// The console's commands that need no controller, those on the memory, and answers, printed.
#![tactic(auto)]

pub mod part;
pub mod peek;
mod place;
pub mod poke;
pub mod reply;
pub mod speak;
pub mod walk;
