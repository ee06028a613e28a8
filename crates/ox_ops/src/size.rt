//! The bytes that a page counts for its items, by arithmetic. A sum past the greatest number stands at it.
ghost use Rattle.std.specs.Prelude.{◌≡◌, ◌+◌, ◌-◌, ◌^◌, ◌≤◌, ℕ, min, length, sum_by, is_some, if◌then◌else◌};
ghost use Rattle.ox_ops.specs.Weight.{entry_weight};
ghost use Rattle.ox_order.specs.Forms.{lo, hi, key_range};
ghost use Rattle.ox_ops.specs.Forms.{notice as notice_form};
ghost use Rattle.ox_ops.specs.Page.{item_size};

use crate::answer::Record;
use crate::notice::{Notice, NoticeItem};
use crate::write::IndexEntry;
use ox_order::{Hi, KeyRange, Lo};
use ox_types::Key;

/// What a page counts bytes of.
pub trait Measured {
    ghost use Rattle.std.specs.Prelude.{◌≡◌, ℕ, ◌-◌, ◌^◌, min};

    ghost size: { Self → ℕ };

    /// The bytes of its text, or the greatest number where they are more.
    fn size(&self) -> u64
        ensures { result ≡ min (size self.now) (2 ^ 64 - 1) };
}

/// The bytes of a key behind its length.
pub fn key_bytes(key: &Key) -> u64
    ensures exact { result ≡ 4 + length key.now }
    ensures small { result ≤ 4100 }
{
    4 + key.bytes().len() as u64
}

impl Measured for Key {
    ghost use Rattle.ox_ops.specs.Page.{key_size};

    ghost size = { key_size };

    fn size(&self) -> u64 {
        key_bytes(self)
    }
}

/// What an index entry weighs, which is also the number of its bytes.
fn weigh_entry(entry: &IndexEntry) -> u64
    ensures { result ≡ min (entry_weight entry.now) (2 ^ 64 - 1) }
{
    let name = entry.name.len() as u64;
    name.saturating_add(key_bytes(&entry.key) + 4)
}

/// What index entries weigh, or the greatest number where that is more.
pub fn weigh_entries(entries: &[IndexEntry]) -> u64
    ensures { result ≡ min (sum_by entry_weight entries.now) (2 ^ 64 - 1) }
{
    let mut total = 0u64;
    for entry in entries {
        total = total.saturating_add(weigh_entry(entry));
    }
    total
}

/// The bytes of a record without its index entries: the two lengths, the number of the entries and its four numbers
/// among them.
fn fixed_bytes(of: &Record) -> u64
    ensures { result ≡ length of.now.key + length of.now.value + (if is_some of.now.session then 53 else 45) }
{
    let bytes = of.key.bytes().len() as u64 + of.value.bytes().len() as u64;
    if of.session.is_some() {
        bytes + 53
    } else {
        bytes + 45
    }
}

impl Measured for Record {
    ghost use Rattle.ox_ops.specs.Page.{record_size};

    ghost size = { record_size };

    fn size(&self) -> u64 {
        fixed_bytes(self).saturating_add(weigh_entries(self.indexes.as_slice()))
    }
}

fn lo_bytes(end: &Lo) -> u64
    ensures exact { result ≡ length (lo.text end.now) }
    ensures small { result ≤ 4101 }
{
    match end {
        Lo::Start => 1,
        Lo::At(key) => 1 + key_bytes(key),
        Lo::Past(key) => 1 + key_bytes(key),
    }
}

fn hi_bytes(end: &Hi) -> u64
    ensures exact { result ≡ length (hi.text end.now) }
    ensures small { result ≤ 4101 }
{
    match end {
        Hi::End => 1,
        Hi::Before(key) => 1 + key_bytes(key),
    }
}

pub fn range_bytes(range: &KeyRange) -> u64
    ensures exact { result ≡ length (key_range.text range.now) }
    ensures small { result ≤ 8202 }
{
    lo_bytes(&range.lo) + hi_bytes(&range.hi)
}

fn notice_bytes(of: &Notice) -> u64
    ensures exact { result ≡ length (notice_form.text of.now) }
    ensures small { result ≤ 8203 }
{
    match of {
        Notice::Created { key, .. } => 9 + key_bytes(key),
        Notice::Modified { key, .. } => 9 + key_bytes(key),
        Notice::Deleted { key } => 1 + key_bytes(key),
        Notice::Ranged { range } => 1 + range_bytes(range),
    }
}

/// The bytes of an item with this notice, whatever its offset.
pub fn notice_size(of: &Notice) -> u64
    ensures { (offset : ℕ) → result ≡ item_size (record { offset = offset; notice = of.now }) }
{
    8 + notice_bytes(of)
}

impl Measured for NoticeItem {
    ghost use Rattle.ox_ops.specs.Page.{item_size};

    ghost size = { item_size };

    fn size(&self) -> u64 {
        8 + notice_bytes(&self.notice)
    }
}
