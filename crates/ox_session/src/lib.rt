//! The open sessions of a shard, and the keys of the records that belong to each.
#![tactic(auto)]

mod laws;
mod roster;
mod sessions;

pub use laws::{later_sessions_come_last, repeated_edits_change_nothing};
pub use ox_types::Timer;
pub use sessions::Sessions;
