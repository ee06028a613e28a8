//! Agreement of nodes on one history, told as tales of what they have kept: lists of moments, with no messages and no time.
#![tactic(auto)]

mod law;

pub use law::{law_leader_completeness, law_matching_logs, law_one_leader};
