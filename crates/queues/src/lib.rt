// Creating and deleting queues, and where their rings lie.
#![tactic(auto)]

pub mod create;
pub mod delete;
pub mod rings;
