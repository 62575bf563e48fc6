// Cue lists: the lines that an operator writes for a job, read into the entries of a plan and a queue of calls.
#![tactic(auto)]

pub mod check;
pub mod due;
pub mod list;
