//! What a replicated machine is, and a register as the smallest one.
#![tactic(auto)]

mod codec;
mod entry;
mod fields;
mod law;
mod machine;
mod register;

pub use entry::{apply_entry, read_command};
pub use law::{law_history_fits, law_history_goes_on, law_text_is_read};
pub use machine::Machine;
pub use ox_types::{Bad, EntryId, MachineFault, Part, Rule, Timer};
pub use register::{Register, RegisterCommand, RegisterQuery, RegisterReply};
