// The console's language: the words of its commands, and what stands behind each. The definitions in specs/ say what every line comes to.
#![tactic(auto)]

pub mod command;
pub mod sizes;
pub mod vocabulary;
