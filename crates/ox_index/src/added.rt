// An entry of an index, and the key of the record that has it.
ghost use Rattle.std.specs.Prelude.{◌≡◌, IfOk};
ghost use Rattle.ox_types.specs.Order.{bytes_cmp};
ghost use Rattle.ox_index.specs.Order.{entry_cmp, added_cmp};

use ox_ops::IndexEntry;
use ox_types::{Key, NoMemory};
use std::cmp::Ordering;

#[derive(Debug, Drop)]
pub struct Added {
    pub entry: IndexEntry,
    pub key: Key,
}

/// The order of the names.
pub fn name_order(entry: &IndexEntry, name: &[u8]) -> Ordering
    ensures { result ≡ bytes_cmp entry.now.name name.now }
{
    entry.name.as_slice().cmp(&name)
}

/// The order by name, then secondary key.
pub fn entry_order(entry: &IndexEntry, name: &[u8], second: &Key) -> Ordering
    ensures { result ≡ entry_cmp entry.now (record { name = name.now; key = second.now }) }
{
    name_order(entry, name).then(entry.key.cmp(second))
}

/// The order by name, then secondary key, then key.
pub fn order(added: &Added, entry: &IndexEntry, key: &Key) -> Ordering
    ensures { result ≡ added_cmp added.now (record { entry = entry.now; key = key.now }) }
{
    entry_order(&added.entry, entry.name.as_slice(), &entry.key).then(added.key.cmp(key))
}

/// A copy of the entry with a copy of the key, at the cost of their bytes.
pub fn copy_of(entry: &IndexEntry, key: &Key) -> Result<Added, NoMemory>
    ensures { IfOk result (λ added. added ≡ record { entry = entry.now; key = key.now }) }
{
    let name = entry.name.try_clone()?;
    let second = entry.key.try_clone()?;
    let key = key.try_clone()?;
    Ok(Added {
        entry: IndexEntry { name, key: second },
        key,
    })
}
