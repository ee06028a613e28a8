// What a leader knows beside its log (docs/REPLICATION.md).
use ox_quorum::Config;
use ox_timer::Timers;
use ox_types::{CoordId, List, NodeId, TermTable};

/// How far a node follows.
#[derive(Debug, Drop)]
pub enum CursorState {
    /// It was fenced with this table, and hasn't answered the leader yet.
    Waiting { table: TermTable },
    /// Its log is the leader's up to `matched`, and entries up to `sent` were sent to it.
    Following { matched: u64, sent: u64 },
}

/// A node that is to follow, and the piece of the snapshot that it wants next.
#[derive(Debug, Drop)]
pub struct Cursor {
    pub node: NodeId,
    pub want: u32,
    pub state: CursorState,
}

/// A client whose write is appended as the entry with this offset.
#[derive(Clone, Copy, Debug, PartialEq, Eq)]
pub struct Pending {
    pub tag: u64,
    pub offset: u64,
}

/// A leader of a term: which coordinator made it so, the config, and the count from which on entries are its own. Cursors
/// stand by rising node, pending clients by rising offset, timers by rising id.
#[derive(Debug, Drop)]
pub struct Leading {
    pub me: NodeId,
    pub chief: CoordId,
    pub config: Config,
    pub begin: u64,
    pub cursors: List<Cursor>,
    pub pending: List<Pending>,
    pub timers: Timers,
}
