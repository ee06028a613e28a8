//! A journal over two files: records behind gates, and a rewrite of all of them.
#![tactic(auto)]

mod fault;
mod filling;
mod head;
mod journal;
mod making;
mod next;
mod opening;
mod reading;
mod record;
mod rewrite;
mod state;

pub use fault::JournalFault;
pub use head::{Choice, Head};
pub use journal::Journal;
pub use ox_outside::DiskFault;
pub use state::State;
