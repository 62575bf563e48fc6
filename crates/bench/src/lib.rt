// The bench: eight heads that burn blocks from one disk, through buffers of a pool that is lent to it.
#![tactic(auto)]

mod admission;
mod giving;
mod lane;
mod leases;
mod making;
pub mod order;
pub mod performing;
mod quiet;
pub mod slip;
mod slips;
pub mod state;
mod ticking;

pub use order::Order;
pub use performing::perform;
pub use slip::{Slip, SlipNumbers};
pub use state::Bench;
