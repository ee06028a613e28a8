//! The records in an ordered table.
ghost use Rattle.std.specs.Prelude.{◌≡◌, ◌≤◌, [], not, map, filter, length, vec_len, vec_capacity, IfOk, OnOk, OnErr};
ghost use Rattle.std.specs.Option.{option_copied, option_map};
ghost use Rattle.std.specs.Map.Iter.{deref_pair};
ghost use Rattle.ox_order.specs.Range.{in_range};
ghost use Rattle.ox_table.specs.Table.{IsRising};
ghost use Rattle.ox_ops.specs.declared.answer.Record.{Record};
ghost use Rattle.ox_ops.specs.State.{record_of, without_key, with_record};
ghost use Rattle.ox_ops.specs.Answer.{compared};
ghost use Rattle.ox_puts.specs.Records.{keyed};

use ox_ops::{Compare, KeyRange, Record};
use ox_table::{Table, TableRange};
use ox_types::{Key, List, NoMemory};
use std::alloc::Global;
use std::marker::Model;

/// Records in the order of their keys. Contracts see it as their list.
#[derive(Debug, Drop)]
pub struct RecordTable {
    table: Table<Record>,
}

impl Model for RecordTable {
    ghost use Rattle.std.specs.Prelude.{◌≡◌, List};
    ghost use Rattle.ox_ops.specs.declared.answer.Record.{Record};
    ghost use Rattle.ox_puts.specs.Records.{keyed, records_in};

    ghost Value = { List Record };

    ghost view = { λ t. records_in t.table };

    ghost invariant = { λ t. t.table ≡ keyed (records_in t.table) };
}

fn record_of_pair<'a>(pair: Option<(&'a Key, &'a Record)>) -> Option<&'a Record>
    ensures { option_copied result ≡ option_map (λ p. p.1) (option_map deref_pair pair.entry) }
{
    match pair {
        Some((_, record)) => Some(record),
        None => None,
    }
}

/// The records of the pairs, in the room that was taken for them.
fn records_of_pairs(mut room: Vec<Record>, pairs: List<(Key, Record)>) -> List<Record>
    requires empty { room.items ≡ [] }
    requires enough { length pairs ≤ vec_capacity room }
    ensures { result ≡ map (λ p. p.1) pairs }
{
    for (_, record) in pairs.into_vec() {
        room.push_reserved(record);
    }
    List::from_vec(room)
}

impl RecordTable {
    pub fn empty(alloc: Global) -> Result<RecordTable, NoMemory>
        ensures { IfOk result (λ records. records ≡ []) }
    {
        Ok(RecordTable {
            table: Table::empty(alloc)?,
        })
    }

    /// The record of the key.
    pub fn get(&self, key: &Key) -> Option<&Record>
        ensures found { option_copied result ≡ record_of key.now self.now }
        ensures rising { IsRising (keyed self.now) }
    {
        self.table.get(key)
    }

    /// The record that the comparison wants.
    pub fn find(&self, compare: Compare, key: &Key) -> Option<&Record>
        ensures found { option_copied result ≡ compared (λ (r : Record). r.key) compare key.now self.now }
        ensures rising { IsRising (keyed self.now) }
    {
        match compare {
            Compare::Equal => self.table.get(key),
            Compare::Floor => record_of_pair(self.table.floor(key)),
            Compare::Ceiling => record_of_pair(self.table.ceiling(key)),
            Compare::Lower => record_of_pair(self.table.lower(key)),
            Compare::Higher => record_of_pair(self.table.higher(key)),
        }
    }

    /// The records of the range, each behind its key.
    pub fn range(&self, range: &KeyRange) -> TableRange<'_, Record>
        ensures records { result ≡ keyed (filter (λ (r : Record). in_range range.now r.key) self.now) }
        ensures rising { IsRising (keyed self.now) }
    {
        self.table.range(range)
    }

    /// Puts the record in its place, and gives the one that had its key. It takes memory for a copy of the key.
    pub fn insert(&mut self, added: Record) -> Result<Option<Record>, NoMemory>
        ensures replaced { IfOk result (λ old. old ≡ record_of added.key self.old) }
        ensures ok { OnOk result (self.new ≡ with_record added self.old) }
        ensures err { OnErr result (self.new ≡ self.old) }
        ensures rising { OnOk result (IsRising (keyed self.new)) }
    {
        let key = added.key.try_clone()?;
        let old = self.table.insert(key, added)?;
        Ok(old)
    }

    /// Takes the record of the key out.
    pub fn remove(&mut self, key: &Key) -> Option<Record>
        ensures removed { result ≡ record_of key.now self.old }
        ensures after { self.new ≡ without_key key.now self.old }
        ensures rising { IsRising (keyed self.new) }
    {
        self.table.remove(key)
    }

    /// Takes the records of the range out.
    pub fn remove_range(
        &mut self,
        alloc: Global,
        range: &KeyRange,
    ) -> Result<List<Record>, NoMemory>
        ensures taken { IfOk result (λ taken. taken ≡ filter (λ (r : Record). in_range range.now r.key) self.old) }
        ensures ok { OnOk result (self.new ≡ filter (λ (r : Record). not (in_range range.now r.key)) self.old) }
        ensures err { OnErr result (self.new ≡ self.old) }
        ensures rising { OnOk result (IsRising (keyed self.new)) }
    {
        let pairs = self.table.range(range);
        let count = pairs.count();
        let room = Vec::with_capacity(alloc, count)?;
        let taken = self.table.remove_range(range)?;
        Ok(records_of_pairs(room, taken))
    }
}
