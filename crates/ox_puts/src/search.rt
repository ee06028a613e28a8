//! The greatest sequence key of a prefix among the records, by look-ups in their table.
ghost use Rattle.std.specs.Prelude.{◌≡◌, ◌≤◌, ◌+◌, ◌*◌, ◌++◌, false, length, map, replicate, IfOk, IfSome};
ghost use Rattle.std.specs.Option.{option_copied};
ghost use Rattle.ox_types.specs.Order.{has_slash};
ghost use Rattle.ox_types.specs.Limits.{key_limit};
ghost use Rattle.ox_ops.specs.declared.answer.Record.{Record};
ghost use Rattle.ox_ops.specs.Sequence.{last_numbers as last_of_keys, sequence_key as key_text};
ghost use Rattle.ox_puts.specs.Search.{Sees, next_of, IsLast};

use crate::record_table::RecordTable;
use crate::sequence_key::{GROUP_BYTES, numbers_in, rest_of, sequence_key};
use ox_ops::{Compare, Record};
use ox_types::{Key, List, NoMemory, Octets};
use std::alloc::Global;

/// What a key is to the search: a sequence key of the prefix, with these numbers, or none. Then the sequence keys that
/// don't stand past it don't stand past the cut either, if there is one.
enum Look {
    Numbers(List<u64>),
    Other(Option<Key>),
}

/// The key of the prefix and the groups, where what stands behind them has no slash.
fn cut_of(alloc: Global, prefix: &Key, groups: &[u8], more: &[u8]) -> Result<Option<Key>, NoMemory>
    ensures cut { IfOk result (λ cut. IfSome cut (λ key. key ≡ prefix.now ++ groups.now)) }
    ensures clean { IfOk result (λ cut. IfSome cut (λ _. has_slash more.now ≡ false)) }
{
    if more.contains(&b'/') {
        return Ok(None);
    }
    let mut text = Octets::from_slice(alloc, prefix.bytes())?;
    text.extend(groups)?;
    match Key::try_new(text.into_vec()) {
        Ok(key) => Ok(Some(key)),
        Err(_) => Ok(None),
    }
}

/// What the key is whose bytes behind the prefix are these, the first of them as many as the groups have.
fn look_behind(
    alloc: Global,
    prefix: &Key,
    count: usize,
    groups: &[u8],
    more: &[u8],
) -> Result<Look, NoMemory>
    requires { length groups.now ≡ 21 * count }
    ensures { IfOk result (Sees prefix.now count (prefix.now ++ (groups.now ++ more.now))) }
{
    match numbers_in(alloc, count, groups)? {
        None => Ok(Look::Other(None)),
        Some(numbers) => {
            if more.is_empty() {
                Ok(Look::Numbers(numbers))
            } else {
                Ok(Look::Other(cut_of(alloc, prefix, groups, more)?))
            }
        }
    }
}

fn look_at(alloc: Global, prefix: &Key, count: usize, key: &Key) -> Result<Look, NoMemory>
    requires { count ≤ 8 }
    ensures { IfOk result (Sees prefix.now count key.now) }
{
    let rest = match rest_of(key.bytes(), prefix.bytes()) {
        Some(rest) => rest,
        None => return Ok(Look::Other(None)),
    };
    let len = GROUP_BYTES * count;
    if rest.len() < len {
        return Ok(Look::Other(None));
    }
    look_behind(alloc, prefix, count, &rest[..len], &rest[len..])
}

fn repeated(alloc: Global, number: u64, count: usize) -> Result<List<u64>, NoMemory>
    ensures { IfOk result (λ numbers. numbers ≡ replicate count number) }
{
    let numbers = vec![in alloc; number; count]?;
    Ok(List::from_vec(numbers))
}

/// The sequence key of this number in each group.
fn repeated_key(alloc: Global, prefix: &Key, number: u64, count: usize) -> Result<Key, NoMemory>
    requires some { 1 ≤ count }
    requires short { length prefix.now + 21 * count ≤ key_limit }
    ensures { IfOk result (λ key. key ≡ key_text prefix.now (replicate count number)) }
{
    let numbers = repeated(alloc, number, count)?;
    sequence_key(alloc, prefix, numbers.as_slice())
}

/// The numbers of the greatest sequence key of the prefix and so many groups, or zeros. It looks no further than it must:
/// at the last record up to the greatest such key, and then at the one before it, or, where a record has more behind such
/// groups, at the last one up to these.
pub fn last_numbers(
    alloc: Global,
    table: &RecordTable,
    prefix: &Key,
    count: usize,
) -> Result<List<u64>, NoMemory>
    requires some { 1 ≤ count }
    requires few { count ≤ 8 }
    requires short { length prefix.now + 21 * count ≤ key_limit }
    ensures numbers { IfOk result (λ numbers. numbers ≡ last_of_keys (map (λ (r : Record). r.key) table.now) prefix.now count) }
    ensures count { IfOk result (λ numbers. length numbers ≡ count) }
{
    let lowest = repeated_key(alloc, prefix, 0, count)?;
    let greatest = repeated_key(alloc, prefix, u64::MAX, count)?;
    let mut found = table.find(Compare::Floor, &greatest);
    while let Some(kept) = found {
        if kept.key < lowest {
            return repeated(alloc, 0, count);
        }
        match look_at(alloc, prefix, count, &kept.key)? {
            Look::Numbers(numbers) => return Ok(numbers),
            Look::Other(cut) => found = next(table, &kept.key, cut),
        }
    }
    repeated(alloc, 0, count)
}

fn next<'a>(table: &'a RecordTable, key: &Key, cut: Option<Key>) -> Option<&'a Record>
    ensures { option_copied result ≡ next_of key.now cut table.entry.now }
{
    match cut {
        Some(cut) => table.find(Compare::Floor, &cut),
        None => table.find(Compare::Lower, key),
    }
}
