//! The bytes of the text of a write, by arithmetic. A sum past the greatest number stands at it.
ghost use Rattle.std.specs.Prelude.{◌≡◌, ◌+◌, ◌-◌, ◌^◌, ◌≤◌, min, length, sum_by};
ghost use Rattle.ox_bytes.specs.Fields.{option, number64};
ghost use Rattle.ox_ops.specs.Forms.{expect as expect_form};
ghost use Rattle.ox_ops.specs.Size.{write_size as size_of_write};

use crate::size::{Measured, key_bytes, range_bytes, weigh_entries};
use crate::write::{Delete, Expect, Put, WriteBatch};
use ox_order::KeyRange;

fn expect_bytes(expect: &Expect) -> u64
    ensures exact { result ≡ length (expect_form.text expect.now) }
    ensures small { result ≤ 9 }
{
    match expect {
        Expect::Any => 1,
        Expect::Absent => 1,
        Expect::Exactly(_) => 9,
    }
}

fn session_bytes(session: Option<u64>) -> u64
    ensures exact { result ≡ length ((option number64).text session) }
    ensures small { result ≤ 9 }
{
    match session {
        None => 1,
        Some(_) => 9,
    }
}

/// The bytes of a put without its deltas and its index entries: the four lengths are among them.
fn fixed_bytes(put: &Put) -> u64
    ensures { result ≡ length put.now.key + length put.now.value + length (expect_form.text put.now.expect) + length ((option number64).text put.now.session) + 16 }
{
    let bytes = put.key.bytes().len() as u64 + put.value.bytes().len() as u64;
    bytes + expect_bytes(&put.expect) + session_bytes(put.session) + 16
}

impl Measured for Put {
    ghost use Rattle.ox_ops.specs.Size.{put_size};

    ghost size = { put_size };

    fn size(&self) -> u64 {
        let deltas = (self.deltas.len() as u64).saturating_mul(8);
        let indexes = weigh_entries(self.indexes.as_slice());
        fixed_bytes(self)
            .saturating_add(deltas)
            .saturating_add(indexes)
    }
}

impl Measured for Delete {
    ghost use Rattle.ox_ops.specs.Size.{delete_size};

    ghost size = { delete_size };

    fn size(&self) -> u64 {
        key_bytes(&self.key) + expect_bytes(&self.expect)
    }
}

impl Measured for KeyRange {
    ghost use Rattle.ox_ops.specs.Size.{range_size};

    ghost size = { range_size };

    fn size(&self) -> u64 {
        range_bytes(self)
    }
}

/// The bytes of a list with these items.
fn list_bytes<T: Measured>(items: &[T]) -> u64
    ensures { result ≡ min (4 + sum_by T.size items.now) (2 ^ 64 - 1) }
{
    let mut total = 0u64;
    for item in items {
        total = total.saturating_add(item.size());
    }
    total.saturating_add(4)
}

/// The bytes of the text of a write, or the greatest number where they are more. It costs a step for each operation, and for
/// each index entry of a put.
pub fn write_size(batch: &WriteBatch) -> u64
    ensures { result ≡ min (size_of_write batch.now) (2 ^ 64 - 1) }
{
    let puts = list_bytes(batch.puts.as_slice());
    let deletes = list_bytes(batch.deletes.as_slice());
    let ranges = list_bytes(batch.ranges.as_slice());
    puts.saturating_add(deletes)
        .saturating_add(ranges)
        .saturating_add(1)
}
