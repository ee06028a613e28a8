//! The runs of schedules: the world, its events, its histories, and when a run is legal; and that every run of one node is.
#![tactic(auto)]

mod law;
mod power;

pub use law::{law_in_step, law_legal};
pub use power::Power;
