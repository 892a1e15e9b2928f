// The console's commands on a controller: the calls, looks at what it holds, and the replay.
#![tactic(auto)]

pub mod call;
pub mod look;
pub mod trace_replay;
