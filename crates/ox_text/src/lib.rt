//! What schedules and reports are written with: numbers, keys, values and ranges as words.
#![tactic(auto)]

mod escape;
mod number;
mod range;

pub use escape::{add_bytes, add_key, add_value, spelling};
pub use number::{add_count, add_counts, add_field, add_joined, add_number};
pub use range::add_range;
