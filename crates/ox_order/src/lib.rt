//! The order of keys, and ranges of keys. No call takes memory but those that read and write ranges as bytes.
#![tactic(auto)]

mod fields;
mod laws;
mod order;
mod range;

pub use laws::{ranges_have_no_gaps, ranges_with_no_room_are_empty};
pub use order::compare;
pub use ox_types::{key_order_goes_by_slashes, key_order_is_total};
pub use range::{Hi, KeyRange, Lo};
