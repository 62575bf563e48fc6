// Disks over any disk: a plan of failures, for trials, and a retry of failed reads, for worn drives.
#![tactic(auto)]

pub mod plan;
pub mod retry;
