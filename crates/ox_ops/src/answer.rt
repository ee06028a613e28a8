// What a read answers.
ghost use Rattle.std.specs.Prelude.{◌≡◌, IfOk};

use crate::notice::NoticeItem;
use crate::reply::Meta;
use crate::write::{IndexEntry, copy_entries};
use ox_types::{Key, List, NoMemory, Value};
use std::alloc::Global;

#[derive(Debug, Drop)]
pub struct Record {
    pub key: Key,
    pub value: Value,
    pub meta: Meta,
    pub session: Option<u64>,
    pub indexes: List<IndexEntry>,
}

impl Record {
    /// A copy, at the cost of its bytes.
    pub fn try_clone(&self, alloc: Global) -> Result<Record, NoMemory>
        ensures { IfOk result (λ copy. copy ≡ self.now) }
    {
        let key = self.key.try_clone()?;
        let value = self.value.try_clone()?;
        let indexes = copy_entries(alloc, self.indexes.as_slice())?;
        Ok(Record {
            key,
            value,
            meta: self.meta,
            session: self.session,
            indexes,
        })
    }
}

/// An answer. A page has `more` where an item was left out behind it.
#[derive(Debug, Drop)]
pub enum ShardAnswer {
    Got(Option<Record>),
    Keys { keys: List<Key>, more: bool },
    Records { records: List<Record>, more: bool },
    Notices { items: List<NoticeItem>, more: bool },
    /// Notices from there on are no longer kept: the offset that was asked, and the low mark above it.
    NotRetained { asked: u64, low: u64 },
    Alive,
    SessionDoesNotExist { session: u64 },
}
