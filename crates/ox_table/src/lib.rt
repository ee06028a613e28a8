//! A table from keys to values, in the order of keys.
#![tactic(auto)]

mod ends;
mod laws;
mod place;
mod run;
mod table;
mod table_range;

pub use laws::{
    edits_change_one_key, edits_keep_the_order, edits_move_sums, ranges_choose_their_keys,
    tables_are_cut_at_a_key, tables_are_told_by_their_values,
};
pub use table::Table;
pub use table_range::TableRange;
