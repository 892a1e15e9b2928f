// Refusals, by name and by number; and tables of rules of which the first that applies decides, which are definitions and laws alone.
#![tactic(auto)]

pub mod refusal;
