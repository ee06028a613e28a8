//! A shard as a machine: its meaning, and that it keeps the laws of machines.
#![tactic(auto)]

mod law;

pub use law::law_shard_is_machine;
