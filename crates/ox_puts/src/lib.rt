//! The records of a shard: puts, deletes and range deletes.
#![tactic(auto)]

mod change;
mod laws;
mod next_key;
mod parts;
mod record_table;
mod records;
mod search;
mod sequence_key;
mod weight;

pub use change::Change;
pub use laws::sequence_keys_are_new;
pub use records::Records;
