// What a client may change.
ghost use Rattle.std.specs.Prelude.{◌≡◌, IfOk};

use ox_order::KeyRange;
use ox_types::{Key, List, NoMemory, Octets, Value};
use std::alloc::Global;

/// What a record must be for a put or a delete to go on.
#[derive(Clone, Copy, Debug, PartialEq, Eq)]
pub enum Expect {
    /// Anything, or nothing.
    Any,
    /// Not there.
    Absent,
    /// There, with this version.
    Exactly(u64),
}

/// A secondary key of a record, in the index of this name (1 to 255 bytes).
#[derive(Debug, Drop)]
pub struct IndexEntry {
    pub name: Octets,
    pub key: Key,
}

impl IndexEntry {
    /// A copy on the same allocator, at the cost of its bytes.
    pub fn try_clone(&self) -> Result<IndexEntry, NoMemory>
        ensures { IfOk result (λ copy. copy ≡ self.now) }
    {
        let name = self.name.try_clone()?;
        let key = self.key.try_clone()?;
        Ok(IndexEntry { name, key })
    }
}

/// A copy of index entries, at the cost of their bytes.
pub fn copy_entries(alloc: Global, entries: &[IndexEntry]) -> Result<List<IndexEntry>, NoMemory>
    ensures { IfOk result (λ copy. copy ≡ entries.now) }
{
    let mut copy = List::new(alloc);
    for entry in entries {
        copy.push(entry.try_clone()?)?;
    }
    Ok(copy)
}

/// A record to be stored. With deltas, its key is the prefix of a sequence key, which the store makes.
#[derive(Debug, Drop)]
pub struct Put {
    pub key: Key,
    pub value: Value,
    pub expect: Expect,
    pub session: Option<u64>,
    pub deltas: List<u64>,
    pub indexes: List<IndexEntry>,
}

#[derive(Debug, Drop)]
pub struct Delete {
    pub key: Key,
    pub expect: Expect,
}

/// Puts, then deletes, then range deletes, each in order.
#[derive(Debug, Drop)]
pub struct WriteBatch {
    pub puts: List<Put>,
    pub deletes: List<Delete>,
    pub ranges: List<KeyRange>,
}

/// The command of an entry. A timeout is in milliseconds; a session is named by the offset of the entry that opened it.
#[derive(Debug, Drop)]
pub enum ShardCommand {
    Write(WriteBatch),
    Open { timeout: u64 },
    Close { session: u64 },
    /// As a close, made by a leader: a client's is refused.
    Expire { session: u64 },
}
