//! The outside in memory: disks that can crash, sources and sinks, each with failing calls.
#![tactic(auto)]

mod counting;
mod disk;
mod log;
mod replay;
mod streams;

pub use disk::MemoryDisk;
pub use log::{Call, Image};
pub use streams::{MemorySink, MemorySource};
