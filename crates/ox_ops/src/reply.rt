// What a command answers.
use ox_types::{Key, List};

/// How a record came about. Times are milliseconds.
#[derive(Clone, Copy, Debug, PartialEq, Eq)]
pub struct Meta {
    pub version: u64,
    pub modifications: u64,
    pub created: u64,
    pub modified: u64,
}

/// The reply to one operation, or to a session's command.
#[derive(Debug, Drop)]
pub enum OpReply {
    /// The record is stored, under this key.
    Put { key: Key, meta: Meta },
    Deleted,
    /// So many records were removed.
    Ranged { removed: u64 },
    KeyNotFound,
    /// The expectation failed: the version that was found, or none.
    UnexpectedVersion { found: Option<u64> },
    SessionDoesNotExist { session: u64 },
    /// The shard would weigh more than its limit: the weight that it would have, and the limit.
    ShardFull { weight: u64, limit: u64 },
    /// The first group of a sequence key, from 0, whose sum is above 2^64 - 1.
    SequenceSpent { group: u32 },
    Opened { session: u64 },
    /// The session is closed, and so many records went with it.
    Closed { removed: u64 },
}

/// A reply for each operation, in their order.
#[derive(Debug, Drop)]
pub struct ShardReply {
    pub ops: List<OpReply>,
}
