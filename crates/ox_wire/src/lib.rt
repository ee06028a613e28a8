//! Every message of the protocol, and its bytes: each message has one text, and what is no text has a first field at fault.
//! The events of a run, what is seen of them, and where the entries of its logs come from, as data.
#![tactic(auto)]

mod body;
mod codec;
mod event;
mod fault;
mod fields;
mod law;
mod making;
mod message;
mod origin;
mod swap;

pub use body::{Asked, Body, ENTRIES_LIMIT, Follower};
pub use codec::{decode, encode};
pub use event::{Event, Image, Request, Turn};
pub use fault::WireFault;
pub use law::{law_append, law_become_leader, law_piece, law_spelling, law_table};
pub use message::{Message, Outcome};
pub use origin::{Cause, Origin};
pub use ox_bytes::WireRule;
pub use swap::{SwapOutcome, SwapRefused};
