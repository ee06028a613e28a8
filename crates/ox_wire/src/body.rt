// What replicas and coordinators say to one another (docs/FORMATS.md).
use ox_quorum::Config;
use ox_types::{Chunk, Entry, Head, List, NodeId, Refusal, Term, TermTable};

/// The most entries of an Append.
pub const ENTRIES_LIMIT: usize = 64;

/// A node that is to follow, and the terms of its log.
#[derive(Debug, Drop)]
pub struct Follower {
    pub node: NodeId,
    pub table: TermTable,
}

/// What a coordinator had asked where it is refused.
#[derive(Clone, Copy, Debug, PartialEq, Eq)]
pub enum Asked {
    NewTerm,
    BecomeLeader,
    AddFollower,
}

/// What a message between replicas and coordinators of one shard says.
#[derive(Debug, Drop)]
pub enum Body {
    /// A coordinator begins a term: the node is to be fenced.
    NewTerm {
        term: Term,
    },
    /// The node is to lead the term. The followers' ids rise.
    BecomeLeader {
        term: Term,
        config: Config,
        followers: List<Follower>,
    },
    /// The leader is to take on one more follower.
    AddFollower {
        term: Term,
        follower: Follower,
    },
    /// The node is fenced in the term, and these are the terms of its log.
    Fenced {
        term: Term,
        table: TermTable,
    },
    /// The leader has committed all that it found, and takes requests.
    Ready {
        term: Term,
    },
    /// The node didn't do what it was asked in this term.
    Refused {
        asked: Asked,
        term: Term,
        refusal: Refusal,
    },
    /// The follower is to cut its log to so many entries.
    Truncate {
        term: Term,
        count: u64,
    },
    /// Entries from the offset `from` on, one by one, and how many entries are committed: at most 64 entries, whose terms
    /// never fall and are at most the message's.
    Append {
        term: Term,
        from: u64,
        commit: u64,
        entries: List<Entry>,
    },
    /// A piece of the leader's snapshot.
    Snapshot(Chunk),
    /// The follower's log has so many entries, as the leader's has them.
    Ack {
        term: Term,
        count: u64,
    },
    /// The follower wants the piece `next` of the snapshot with this head.
    Want {
        term: Term,
        head: Head,
        next: u32,
    },
}
