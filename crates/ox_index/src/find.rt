//! Lookups in a list of added entries that stands in order.
ghost use Rattle.std.specs.Prelude.{◌≡◌, IfOk, map, not};
ghost use Rattle.std.specs.Option.{option_copied};
ghost use Rattle.std.specs.Ordering.{is_lt, is_le};
ghost use Rattle.ox_types.specs.Order.{bytes_cmp};
ghost use Rattle.ox_types.specs.Lists.{first_of, last_of};
ghost use Rattle.ox_index.specs.Order.{entry_cmp, IsInOrder};
ghost use Rattle.ox_index.specs.Pairs.{found};
ghost use Rattle.ox_index.specs.Place.{kept};

use crate::added::{Added, entry_order, name_order};
use crate::place::{count_before, count_up_to};
use ox_ops::Compare;
use ox_types::{Key, List, NoMemory};
use std::alloc::Global;

/// The first entry, unless its name and secondary key are past these.
fn first_up_to<'a>(entries: &'a [Added], name: &[u8], second: &Key) -> Option<&'a Added>
    ensures { option_copied result ≡ kept (λ a. is_le (entry_cmp a.entry (record { name = name.now; key = second.now }))) (first_of entries.now) }
{
    let first = entries.first()?;
    if entry_order(&first.entry, name, second).is_le() {
        Some(first)
    } else {
        None
    }
}

/// The first entry, unless its name is past this one.
fn first_up_to_name<'a>(entries: &'a [Added], name: &[u8]) -> Option<&'a Added>
    ensures { option_copied result ≡ kept (λ a. is_le (bytes_cmp a.entry.name name.now)) (first_of entries.now) }
{
    let first = entries.first()?;
    if name_order(&first.entry, name).is_le() {
        Some(first)
    } else {
        None
    }
}

/// The last entry, unless its name is before this one.
fn last_from_name<'a>(entries: &'a [Added], name: &[u8]) -> Option<&'a Added>
    ensures { option_copied result ≡ kept (λ a. not (is_lt (bytes_cmp a.entry.name name.now))) (last_of entries.now) }
{
    let last = entries.last()?;
    if name_order(&last.entry, name).is_lt() {
        None
    } else {
        Some(last)
    }
}

/// The entry of the index of this name that a comparison of secondary keys wants.
pub fn find<'a>(
    entries: &'a [Added],
    name: &[u8],
    compare: Compare,
    second: &Key,
) -> Option<&'a Added>
    requires { IsInOrder entries.now }
    ensures { option_copied result ≡ found name.now compare second.now entries.now }
{
    match compare {
        Compare::Equal => first_up_to(
            &entries[count_before(entries, name, second)..],
            name,
            second,
        ),
        Compare::Floor => last_from_name(&entries[..count_up_to(entries, name, second)], name),
        Compare::Ceiling => first_up_to_name(&entries[count_before(entries, name, second)..], name),
        Compare::Lower => last_from_name(&entries[..count_before(entries, name, second)], name),
        Compare::Higher => first_up_to_name(&entries[count_up_to(entries, name, second)..], name),
    }
}

/// Copies of the keys of these entries, in their order.
pub fn keys_of(alloc: Global, entries: &[Added]) -> Result<List<Key>, NoMemory>
    ensures { IfOk result (λ keys. keys ≡ map (λ a. a.key) entries.now) }
{
    let mut keys = List::new(alloc);
    for added in entries {
        keys.push(added.key.try_clone()?)?;
    }
    Ok(keys)
}
