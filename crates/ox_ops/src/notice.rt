// What a command changed, for those who follow.
ghost use Rattle.std.specs.Prelude.{◌≡◌, IfOk};

use ox_order::KeyRange;
use ox_types::{Key, List, NoMemory};

#[derive(Debug, Drop)]
pub enum Notice {
    Created { key: Key, version: u64 },
    Modified { key: Key, version: u64 },
    Deleted { key: Key },
    /// Records were removed in this range, as it was asked.
    Ranged { range: KeyRange },
}

impl Notice {
    /// A copy on the same allocator, at the cost of its keys.
    pub fn try_clone(&self) -> Result<Notice, NoMemory>
        ensures { IfOk result (λ copy. copy ≡ self.now) }
    {
        match self {
            Notice::Created { key, version } => Ok(Notice::Created {
                key: key.try_clone()?,
                version: *version,
            }),
            Notice::Modified { key, version } => Ok(Notice::Modified {
                key: key.try_clone()?,
                version: *version,
            }),
            Notice::Deleted { key } => Ok(Notice::Deleted {
                key: key.try_clone()?,
            }),
            Notice::Ranged { range } => Ok(Notice::Ranged {
                range: range.try_clone()?,
            }),
        }
    }
}

/// A notice, and the offset of the entry that left it.
#[derive(Debug, Drop)]
pub struct NoticeItem {
    pub offset: u64,
    pub notice: Notice,
}

/// The notices of one entry, and the store's time after it (ms).
#[derive(Debug, Drop)]
pub struct NoticeBatch {
    pub offset: u64,
    pub time: u64,
    pub notices: List<Notice>,
}
