//! The shard machine: the one-thread store over the ordered table, sessions, indexes and notices.
#![tactic(auto)]

mod closing;
mod done;
mod laws;
mod lists;
mod machine;
mod parts;
mod reading;
mod replicated;
mod writing;

pub use laws::states_fit_greater_counts;
pub use machine::{ShardMachine, is_expiry};
