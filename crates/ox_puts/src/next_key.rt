//! The next key of a sequence.
ghost use Rattle.std.specs.Prelude.{◌≡◌, ◌≤◌, ◌+◌, ◌*◌, length, map, IfOk};
ghost use Rattle.ox_types.specs.Limits.{key_limit};
ghost use Rattle.ox_ops.specs.declared.answer.Record.{Record};
ghost use Rattle.ox_ops.specs.Sequence.{raised as raised_by, spent_from, next_key as next_of_keys};
ghost use Rattle.ox_puts.specs.Search.{numbers_or_group};

use crate::record_table::RecordTable;
use crate::search::last_numbers;
use crate::sequence_key::sequence_key;
use ox_types::{Key, List, NoMemory};
use std::alloc::Global;

/// Each number raised by its delta, or the first group, from 0, whose sum is above 2^64 - 1.
fn raised(
    alloc: Global,
    numbers: &[u64],
    deltas: &[u64],
) -> Result<Result<List<u64>, u32>, NoMemory>
    requires same { length numbers.now ≡ length deltas.now }
    requires few { length deltas.now ≤ 8 }
    ensures { IfOk result (λ sums. sums ≡ numbers_or_group (raised_by numbers.now deltas.now) (spent_from 0 (raised_by numbers.now deltas.now))) }
{
    let mut sums = List::new(alloc);
    for group in 0..deltas.len() {
        match numbers[group].checked_add(deltas[group]) {
            Some(sum) => sums.push(sum)?,
            None => return Ok(Err(group as u32)),
        }
    }
    Ok(Ok(sums))
}

/// The key that follows the greatest of the prefix and as many groups as there are deltas, or the first group that is
/// spent. It costs look-ups in the table, and the bytes of the keys that it looks at.
pub fn next_key(
    alloc: Global,
    table: &RecordTable,
    prefix: &Key,
    deltas: &[u64],
) -> Result<Result<Key, u32>, NoMemory>
    requires some { 1 ≤ length deltas.now }
    requires few { length deltas.now ≤ 8 }
    requires short { length prefix.now + 21 * length deltas.now ≤ key_limit }
    ensures { IfOk result (λ key. key ≡ next_of_keys (map (λ (r : Record). r.key) table.now) prefix.now deltas.now) }
{
    let last = last_numbers(alloc, table, prefix, deltas.len())?;
    match raised(alloc, last.as_slice(), deltas)? {
        Ok(numbers) => Ok(Ok(sequence_key(alloc, prefix, numbers.as_slice())?)),
        Err(group) => Ok(Err(group)),
    }
}
