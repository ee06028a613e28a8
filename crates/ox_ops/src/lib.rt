//! The vocabulary of the store: operations, replies, queries and answers, what they mean, their bytes, and pages of items.
#![tactic(auto)]

mod answer;
mod codec;
mod fields;
mod law;
mod notice;
mod page;
mod query;
mod reply;
mod rules;
mod size;
mod write;
mod write_size;

pub use answer::{Record, ShardAnswer};
pub use codec::{
    decode_answer, decode_command, decode_query, decode_reply, encode_answer, encode_command,
    encode_query, encode_reply,
};
pub use law::pages_hold_what_was_offered;
pub use notice::{Notice, NoticeBatch, NoticeItem};
pub use ox_order::{Hi, KeyRange, Lo};
pub use ox_types::{Bad, MachineFault, Part, Rule};
pub use page::Page;
pub use query::{Compare, ShardQuery};
pub use reply::{Meta, OpReply, ShardReply};
pub use rules::check;
pub use size::{Measured, notice_size, weigh_entries};
pub use write::{Delete, Expect, IndexEntry, Put, ShardCommand, WriteBatch, copy_entries};
