//! The notices that commands leave: which batches are kept, the low mark, and reading on from a place.
#![tactic(auto)]

mod notices;
mod queue;
mod reading;
mod weight;

pub use notices::{AfterFault, NotRetained, NoticePage, Notices};
