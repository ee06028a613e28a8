// What a coordinator answers to a swap of two nodes (docs/FORMATS.md).
use ox_types::{NodeId, Term};

/// Why no swap begins.
#[derive(Clone, Copy, Debug, PartialEq, Eq)]
pub enum SwapRefused {
    UnknownShard,
    /// Another change of this shard is in progress, in this term.
    InProgress { term: Term },
    /// The node that is to leave isn't in the ensemble.
    NotMember { node: NodeId },
    /// There is no such node that could enter.
    UnknownNode { node: NodeId },
    /// The node that is to enter is in the ensemble already.
    AlreadyMember { node: NodeId },
    /// There is no further term, or no further version of the status record.
    TermsSpent { term: Term, version: u64 },
}

/// What became of a swap.
#[derive(Clone, Copy, Debug, PartialEq, Eq)]
pub enum SwapOutcome {
    /// It began in this term.
    Begun { term: Term },
    Refused(SwapRefused),
}
