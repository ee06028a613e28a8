// Every message on the wire (docs/FORMATS.md).
use crate::body::Body;
use crate::swap::SwapOutcome;
use ox_types::{NodeId, Octets, Peer, Refusal, ShardId, Term};

/// What became of a client's request.
#[derive(Debug, Drop)]
pub enum Outcome {
    /// The write is committed as the entry with this term and offset, and this is its reply.
    Ack {
        term: Term,
        offset: u64,
        reply: Octets,
    },
    /// The read was answered at a log of so many committed entries.
    Read {
        term: Term,
        prefix: u64,
        answer: Octets,
    },
    /// Nothing was done.
    Refused(Refusal),
}

/// A message: a whole value, of which a frame carries one. A client numbers its requests, and a reply has the number of its
/// request.
#[derive(Debug, Drop)]
pub enum Message {
    /// Between replicas and coordinators of one shard.
    Peer {
        from: Peer,
        to: Peer,
        shard: ShardId,
        body: Body,
    },
    /// A client's request, as the bytes of a command of the machine, or of a query where it is no write.
    Request {
        number: u64,
        shard: ShardId,
        write: bool,
        body: Octets,
    },
    /// The answer to a request.
    Reply {
        number: u64,
        outcome: Outcome,
    },
    /// An operator asks a coordinator to put the node `enter` in the place of `out`.
    Swap {
        number: u64,
        shard: ShardId,
        out: NodeId,
        enter: NodeId,
    },
    /// The answer to a swap.
    SwapReply {
        number: u64,
        outcome: SwapOutcome,
    },
}
