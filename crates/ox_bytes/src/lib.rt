//! Fields as bytes: each has one spelling, and what isn't in the grammar has a first fault.
#![tactic(auto)]

mod chunk;
mod fault;
mod field;
mod law;
mod lists;
mod log;
mod reader;
mod refusal;
mod term_table;
mod whole;
mod writer;

pub use chunk::{PIECE_SIZE, piece_len, pieces};
pub use fault::{BadField, FieldFault, WireRule};
pub use field::Field;
pub use law::{law_list_by, law_pair_by};
pub use ox_types::{COUNT_LIMIT, OFFSET_LIMIT, SAVED_LIMIT, TERM_LIMIT, TIME_LIMIT};
pub use reader::{Reader, Short};
pub use whole::{decode, encode};
pub use writer::Writer;
