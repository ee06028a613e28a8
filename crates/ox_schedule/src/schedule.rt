// A schedule as data.
use ox_ops::{ShardCommand, ShardQuery};
use ox_types::List;
use ox_wire::Event;

/// How the operations of a write are spelt.
#[derive(Clone, Copy, Debug, PartialEq, Eq)]
pub enum Grouping {
    /// One operation, by itself.
    Alone,
    /// One or more behind the word `batch`.
    Batch,
}

/// What a client asks.
#[derive(Debug, Drop)]
pub enum Request {
    Write {
        grouping: Grouping,
        command: ShardCommand,
    },
    Read(ShardQuery),
}

/// How many there are. Nodes are numbered from 1, shards from 0.
#[derive(Clone, Copy, Debug, PartialEq, Eq)]
pub struct Places {
    pub nodes: u64,
    pub shards: u64,
}

/// The first line of a schedule.
#[derive(Clone, Copy, Debug, PartialEq, Eq)]
pub enum First {
    /// One node that leads every shard, with this many blocks a replica where the line says how many.
    Solo { shards: u64, blocks: Option<u64> },
}

/// The first line, and an event for each further line.
#[derive(Debug, Drop)]
pub struct Schedule {
    pub first: First,
    pub events: List<Event<Request>>,
}
