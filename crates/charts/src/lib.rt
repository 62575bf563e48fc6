// A job's log as a picture: each line read back, and the chart of its lines as an SVG.
#![tactic(auto)]

mod axis;
mod bands;
pub mod chart;
pub mod entry;
mod frame;
mod lines;
pub mod log;
mod mark;
