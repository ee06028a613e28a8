//! The timers that run at a leader: one for each timer of its machine.
#![tactic(auto)]

mod find;
mod law;
mod merge;
mod running;
mod timers;

pub use law::{
    law_due_is_the_least, law_heard_starts_anew, law_retimed_are_the_machines, law_timers_rise,
};
pub use ox_types::Timer;
pub use running::Running;
pub use timers::Timers;
