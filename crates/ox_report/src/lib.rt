//! The text of a run and of what clients are told: replies, answers, refusals, messages, effects and histories.
#![tactic(auto)]

mod answer;
mod effect;
mod field;
mod history;
mod message;
mod refusal;
mod reply;

pub use answer::add_answer;
pub use effect::{
    add_answered, add_arrival, add_down, add_ignored, add_kept, add_opened, add_sent, add_unknown,
    add_was_cut, add_whole,
};
pub use history::{add_entry, add_history};
pub use refusal::add_refusal;
pub use reply::{add_replies, add_reply};
