//! The secondary indexes of a shard: which entries its records have, in order.
#![tactic(auto)]

mod added;
mod find;
mod index;
mod laws;
mod place;

pub use added::Added;
pub use index::Index;
pub use laws::{edits_change_one_entry, indexes_are_told_by_their_entries, pairs_are_sorted};
