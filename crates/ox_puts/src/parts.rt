//! The parts of an operation that look at one record.
ghost use Rattle.std.specs.Prelude.{◌≡◌, ◌<◌, IfOk};
ghost use Rattle.std.specs.Option.{option_copied, ForSome};
ghost use Rattle.ox_ops.specs.Operation.{meets as meets_of, version_of as version_in, meta_over as meta_of, put_notice as notice_of_put, range_notice as notice_of_range};

use ox_ops::{Expect, Hi, IndexEntry, KeyRange, Lo, Meta, Notice, Record};
use ox_types::{Key, List, NoMemory};
use std::alloc::Global;

/// Whether what is there meets the expectation.
pub fn meets(expect: Expect, old: Option<&Record>) -> bool
    ensures { result ≡ meets_of expect (option_copied old.entry) }
{
    match expect {
        Expect::Any => true,
        Expect::Absent => old.is_none(),
        Expect::Exactly(version) => match old {
            Some(old) => old.meta.version == version,
            None => false,
        },
    }
}

/// The version that was found, or none.
pub fn version_of(old: Option<&Record>) -> Option<u64>
    ensures { result ≡ version_in (option_copied old.entry) }
{
    match old {
        Some(old) => Some(old.meta.version),
        None => None,
    }
}

/// How a record comes about over the old one.
pub fn meta_over(version: u64, time: u64, old: Option<&Record>) -> Meta
    requires { ForSome (option_copied old) (λ r. r.meta.modifications < version) }
    ensures { result ≡ meta_of version time (option_copied old.entry) }
{
    match old {
        None => Meta {
            version,
            modifications: 0,
            created: time,
            modified: time,
        },
        Some(old) => Meta {
            version,
            modifications: old.meta.modifications + 1,
            created: old.meta.created,
            modified: time,
        },
    }
}

/// The notice of a put.
pub fn put_notice(old: Option<&Record>, key: &Key, version: u64) -> Result<Notice, NoMemory>
    ensures { IfOk result (λ notice. notice ≡ notice_of_put (option_copied old.entry) key.now version) }
{
    let key = key.try_clone()?;
    match old {
        None => Ok(Notice::Created { key, version }),
        Some(_) => Ok(Notice::Modified { key, version }),
    }
}

/// The notice of a range delete that removed so many records.
pub fn range_notice(range: KeyRange, removed: u64) -> Option<Notice>
    ensures { result ≡ notice_of_range range removed }
{
    if removed == 0 {
        None
    } else {
        Some(Notice::Ranged { range })
    }
}

fn copy_entry(entry: &IndexEntry) -> Result<IndexEntry, NoMemory>
    ensures { IfOk result (λ copy. copy ≡ entry.now) }
{
    Ok(IndexEntry {
        name: entry.name.try_clone()?,
        key: entry.key.try_clone()?,
    })
}

pub fn copy_entries(alloc: Global, entries: &[IndexEntry]) -> Result<List<IndexEntry>, NoMemory>
    ensures { IfOk result (λ copies. copies ≡ entries.now) }
{
    let mut copies = List::new(alloc);
    for entry in entries {
        copies.push(copy_entry(entry)?)?;
    }
    Ok(copies)
}

fn copy_lo(lo: &Lo) -> Result<Lo, NoMemory>
    ensures { IfOk result (λ copy. copy ≡ lo.now) }
{
    match lo {
        Lo::Start => Ok(Lo::Start),
        Lo::At(key) => Ok(Lo::At(key.try_clone()?)),
        Lo::Past(key) => Ok(Lo::Past(key.try_clone()?)),
    }
}

fn copy_hi(hi: &Hi) -> Result<Hi, NoMemory>
    ensures { IfOk result (λ copy. copy ≡ hi.now) }
{
    match hi {
        Hi::End => Ok(Hi::End),
        Hi::Before(key) => Ok(Hi::Before(key.try_clone()?)),
    }
}

pub fn copy_range(range: &KeyRange) -> Result<KeyRange, NoMemory>
    ensures { IfOk result (λ copy. copy ≡ range.now) }
{
    Ok(KeyRange {
        lo: copy_lo(&range.lo)?,
        hi: copy_hi(&range.hi)?,
    })
}
