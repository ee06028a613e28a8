// The durable state in memory.
ghost use Rattle.std.specs.Prelude.{◌≡◌, ◌+◌, ◌≤◌, true, length};
ghost use Rattle.ox_types.specs.Durable.{may_follow};
ghost use Rattle.ox_types.specs.Limits.{count_limit};
ghost use Rattle.ox_wal.specs.Blocks.{blocks_used};

use ox_types::{Entry, Head, Octets, Seat, Term};

/// The durable state of a replica: its term and seat, the head and the bytes of its snapshot, and the entries behind it.
#[derive(Drop)]
pub struct Log {
    pub term: Term,
    pub seat: Seat,
    pub base: Head,
    pub saved: Option<Octets>,
    pub entries: Vec<Entry>,
    /// The blocks of 4,096 bytes that the entries take.
    pub used: u64,
    ghost counted: { used ≡ blocks_used entries.items },
    ghost follows: { may_follow term base.term base.count entries.items ≡ true },
    ghost small: { base.count + length entries.items ≤ count_limit },
}
