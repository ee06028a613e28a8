// What happens next in a run.
use ox_types::Octets;

/// What a node is asked.
#[derive(Debug, Drop)]
pub struct Request {
    pub write: bool,
    /// The bytes of a command, or of a query where it is no write.
    pub body: Octets,
}

/// What a cut leaves of the call of the disks that it is in.
#[derive(Clone, Copy, Debug, PartialEq, Eq)]
pub enum Image {
    /// `none`: nothing of it.
    Nothing,
    /// `kept`: all of it.
    Kept,
    /// `torn`: a part of it.
    Torn,
}

/// What an actor takes in one step, and what may be cut. `Q` is how a request is held: as its words say it, or as bytes.
#[derive(Debug, Drop)]
pub enum Turn<Q> {
    Client { node: u64, shard: u64, request: Q },
    /// A message arrives. Messages are numbered from 1 in the order of sending; any number may stand here.
    Deliver { message: u64 },
    /// A node's clock comes to this time (ms) at one shard. Any number may stand here.
    Tick { node: u64, shard: u64, ms: u64 },
}

/// What happens next.
#[derive(Debug, Drop)]
pub enum Event<Q> {
    Takes(Turn<Q>),
    /// The actor goes down inside this device call of the step, counted from 1.
    Cut {
        call: u64,
        image: Image,
        turn: Turn<Q>,
    },
    /// The node goes down.
    Stop {
        node: u64,
    },
    /// The node recovers its replicas.
    Start {
        node: u64,
    },
    /// The node goes down for good.
    Lose {
        node: u64,
    },
    /// The replica is told to leave the terms below this one, 1 to 2^53. Coordinator 0, which is never up, tells it.
    Fence {
        node: u64,
        shard: u64,
        term: u64,
    },
    /// The replica is told to lead in this term, 1 to 2^53.
    Lead {
        node: u64,
        shard: u64,
        term: u64,
    },
}
