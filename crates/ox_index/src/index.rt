ghost use Rattle.std.specs.Prelude.{◌≡◌, [], IfOk, OnOk, OnErr, map, filter};
ghost use Rattle.std.specs.Option.{option_copied, option_map};
ghost use Rattle.ox_order.specs.Range.{in_range};
ghost use Rattle.ox_ops.specs.Answer.{compared};
ghost use Rattle.ox_index.specs.Order.{IsInOrder};
ghost use Rattle.ox_index.specs.Pairs.{pair_of, pairs_under, with_added, without_added};

use crate::added::{Added, copy_of};
use crate::find::{find, keys_of};
use crate::place::{end_of, place_of, start_of};
use ox_ops::{Compare, IndexEntry, KeyRange};
use ox_types::{Key, List, NoMemory};
use std::alloc::Global;
use std::marker::Model;

/// Entries of secondary indexes with the keys of their records. Contracts see it as the list of what was added, by name,
/// secondary key and key. It is one sorted vector.
#[derive(Debug, Drop)]
pub struct Index {
    entries: Vec<Added>,
}

impl Model for Index {
    ghost use Rattle.std.specs.Prelude.{List};
    ghost use Rattle.ox_index.specs.declared.added.Added.{Added};
    ghost use Rattle.ox_index.specs.Order.{IsInOrder};

    ghost Value = { List Added };

    ghost view = { λ i. i.entries.items };

    ghost invariant = { λ i. IsInOrder i.entries.items };
}

impl Index {
    pub fn empty(alloc: Global) -> Result<Index, NoMemory>
        ensures { IfOk result (λ index. index ≡ []) }
    {
        Ok(Index {
            entries: Vec::new(alloc),
        })
    }

    /// Adds the entry of a record with this key, unless it is there. Where memory runs out, the index is as it was; an entry
    /// that is there takes none. It costs a binary search, and for a new entry one move of those past it.
    pub fn add(&mut self, entry: &IndexEntry, key: &Key) -> Result<(), NoMemory>
        ensures ok { OnOk result (self.new ≡ with_added (record { entry = entry.now; key = key.now }) self.old) }
        ensures err { OnErr result (self.new ≡ self.old) }
        ensures was_in_order { IsInOrder self.old }
        ensures in_order { IsInOrder self.new }
    {
        match place_of(&self.entries, entry, key) {
            Ok(_) => Ok(()),
            Err(place) => {
                let added = copy_of(entry, key)?;
                self.entries.insert(place, added)?;
                Ok(())
            }
        }
    }

    /// Takes the entry of the record with this key out, if it is there. It costs a binary search and one move of the entries
    /// past it.
    pub fn drop_entry(&mut self, entry: &IndexEntry, key: &Key)
        ensures after { self.new ≡ without_added (record { entry = entry.now; key = key.now }) self.old }
        ensures was_in_order { IsInOrder self.old }
        ensures in_order { IsInOrder self.new }
    {
        match place_of(&self.entries, entry, key) {
            Ok(place) => {
                self.entries.remove(place);
            }
            Err(_) => {}
        }
    }

    /// The key of the record that a comparison of secondary keys wants in the index of this name: of equal secondary keys
    /// the least key for `Equal`, `Ceiling` and `Higher`, and the greatest for `Floor` and `Lower`. It costs a binary search.
    pub fn lookup(&self, name: &[u8], compare: Compare, key: &Key) -> Option<&Key>
        ensures key { option_copied result ≡ option_map (λ p. p.key) (compared (λ p. p.second) compare key.now (pairs_under name.now self.now)) }
        ensures in_order { IsInOrder self.now }
    {
        match find(&self.entries, name, compare, key) {
            Some(added) => Some(&added.key),
            None => None,
        }
    }

    /// The entries with a secondary key of the range in the index of this name, by secondary key and then key, at the cost of
    /// two binary searches.
    pub fn within(&self, name: &[u8], range: &KeyRange) -> &[Added]
        ensures pairs { map pair_of result.now ≡ filter (λ p. in_range range.now p.second) (pairs_under name.now self.now) }
        ensures in_order { IsInOrder self.now }
    {
        let entries = self.entries.as_slice();
        let start = start_of(entries, name, &range.lo);
        let end = end_of(entries, name, &range.hi);
        &entries[start..end.max(start)]
    }

    /// The keys of the records with a secondary key of the range in the index of this name, by secondary key and then key:
    /// one for each entry. It costs two binary searches and copies of the keys.
    pub fn list(&self, name: &[u8], range: &KeyRange) -> Result<List<Key>, NoMemory>
        ensures keys { IfOk result (λ keys. keys ≡ map (λ p. p.key) (filter (λ p. in_range range.now p.second) (pairs_under name.now self.now))) }
        ensures in_order { IsInOrder self.now }
    {
        let alloc = *self.entries.allocator();
        keys_of(alloc, self.within(name, range))
    }
}
