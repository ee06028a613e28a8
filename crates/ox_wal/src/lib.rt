//! The durable state of a replica: a write-ahead log over a journal.
#![tactic(auto)]

mod action;
mod commit;
mod draft;
mod entries;
mod fault;
mod log;
mod reading;
mod recover;
mod replay;
mod runs;
mod taking;
mod wal;

pub use fault::{CommitFault, WalFault};
pub use log::Log;
pub use wal::Wal;
