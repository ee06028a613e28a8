ghost use Rattle.std.specs.Prelude.{◌≡◌, ◌↔◌, ◌+◌, ◌-◌, ◌≤◌, ◌<◌, ◌^◌, [], not, filter, sum_by, option_to_list, vec_len, vec_capacity, IsTrue, IfOk, OnOk, OnErr, None, if◌then◌else◌};
ghost use Rattle.std.specs.Option.{option_copied};
ghost use Rattle.ox_order.specs.Range.{in_range};
ghost use Rattle.ox_ops.specs.declared.answer.Record.{Record};
ghost use Rattle.ox_ops.specs.declared.reply.OpReply.TheVariants as reply;
ghost use Rattle.ox_ops.specs.State.{record_of, with_record, without_key};
ghost use Rattle.ox_ops.specs.Weight.{entry_weight, record_weight as weight_of_record, weight_limit};
ghost use Rattle.ox_ops.specs.Operation.{put_record, put_key, unless_full, delete_on, range_on};
ghost use Rattle.ox_ops.specs.Forms.{put as put_form};
ghost use Rattle.ox_ops.specs.Check.{put_fault};
ghost use Rattle.ox_ops.specs.Answer.{compared};
ghost use Rattle.ox_puts.specs.Records.{RecordsState, IsSound, keyed, weight_in, shard_at, replaced_by, deleted_by};
ghost use Rattle.ox_puts.specs.Given.{put_given, put_under_given, put_at_given, weight_given};
ghost use Rattle.ox_puts.specs.Changes.{Makes, MakesAt, IsStored, IsRemoved, IsRanged};

use crate::change::{Change, refusal};
use crate::next_key::next_key;
use crate::parts::{
    copy_entries, copy_range, meets, meta_over, put_notice, range_notice, version_of,
};
use crate::record_table::RecordTable;
use crate::weight::{record_weight, records_weight, weight_if_some, weight_with};
use ox_ops::{Compare, Delete, KeyRange, Notice, OpReply, Put, Record};
use ox_table::TableRange;
use ox_types::{Key, List, NoMemory, WEIGHT_LIMIT};
use std::alloc::Global;
use std::marker::Model;

/// The records of a shard, with the version of its next stored put and its weight.
#[derive(Debug, Drop)]
pub struct Records {
    alloc: Global,
    table: RecordTable,
    next_version: u64,
    /// What the records weigh.
    held: u64,
    /// What was charged and not refunded.
    other: u64,
}

impl Model for Records {
    ghost use Rattle.ox_puts.specs.Records.{RecordsState, IsKept};

    ghost Value = { RecordsState };

    ghost view = { λ r. record { records = r.table; next_version = r.next_version; other = r.other } };

    ghost invariant = { λ r. IsKept (record { records = r.table; next_version = r.next_version; other = r.other }) r.held };
}

/// The one record, if it is there, in the room that was taken for it.
fn list_of(mut room: Vec<Record>, old: Option<Record>) -> List<Record>
    requires empty { room.items ≡ [] }
    requires enough { vec_len room < vec_capacity room }
    ensures { result ≡ option_to_list old }
{
    if let Some(old) = old {
        room.push_reserved(old);
    }
    List::from_vec(room)
}

impl Records {
    pub fn empty(alloc: Global) -> Result<Records, NoMemory>
        ensures { IfOk result (λ r. r ≡ record { records = []; next_version = 0; other = 0 }) }
    {
        Ok(Records {
            alloc,
            table: RecordTable::empty(alloc)?,
            next_version: 0,
            held: 0,
            other: 0,
        })
    }

    /// The weight of the records and of what was charged.
    pub fn weight(&self) -> u64
        ensures weight { result ≡ weight_in self.now }
        ensures sound { IsSound self.now }
    {
        self.held + self.other
    }

    /// The version of the next stored put.
    pub fn next_version(&self) -> u64
        ensures version { result ≡ self.now.next_version }
        ensures sound { IsSound self.now }
    {
        self.next_version
    }

    /// Adds a weight to what is charged, unless the whole would weigh more than 268,435,456: then it changes nothing, and
    /// answers false.
    pub fn charge(&mut self, weight: u64) -> bool
        ensures answer { IsTrue result ↔ (weight_in self.old + weight ≤ weight_limit) }
        ensures charged { self.new ≡ (if result then record self.old { other = self.old.other + weight } else self.old) }
    {
        if weight > WEIGHT_LIMIT - self.held - self.other {
            return false;
        }
        self.other += weight;
        true
    }

    /// Takes a weight back that was charged.
    pub fn refund(&mut self, weight: u64)
        requires { weight ≤ self.old.other }
        ensures refunded { self.new ≡ record self.old { other = self.old.other - weight } }
        ensures was_sound { IsSound self.old }
    {
        self.other -= weight;
    }

    /// The record that the comparison wants, at the cost of a binary search.
    pub fn get(&self, compare: Compare, key: &Key) -> Option<&Record>
        ensures found { option_copied result ≡ compared (λ (r : Record). r.key) compare key.now self.now.records }
        ensures sound { IsSound self.now }
    {
        self.table.find(compare, key)
    }

    /// The records of the range, each behind its key, in the order of keys. It costs two binary searches, and the records
    /// that are then taken.
    pub fn scan(&self, range: &KeyRange) -> TableRange<'_, Record>
        ensures records { result ≡ keyed (filter (λ (r : Record). in_range range.now r.key) self.now.records) }
        ensures sound { IsSound self.now }
    {
        self.table.range(range)
    }

    /// A put. Its session, its sequence, its expectation and the weight with it are tested in this order, and a put that is
    /// refused leaves everything as it was, as one does for which memory runs out. `session_live` says whether its session is
    /// open, where it names one. It costs a few binary searches, one move of the records behind a new key, and work
    /// proportional to the record.
    pub fn put(&mut self, put: &Put, session_live: bool, time: u64) -> Result<Change, NoMemory>
        requires next { self.old.next_version < 2 ^ 63 }
        requires lawful { IsTrue (put_form.is_lawful put.now) }
        requires faultless { put_fault put.now ≡ None }
        ensures made { IfOk result (λ change. MakesAt time (λ s. put_given s self.old.other session_live put.now) self.old self.new change) }
        ensures gone { IfOk result (λ change. change.gone ≡ replaced_by change.reply self.old.records) }
        ensures others { self.new.other ≡ self.old.other }
        ensures versions { self.new.next_version ≤ self.old.next_version + 1 }
        ensures err { OnErr result (self.new ≡ self.old) }
    {
        match put.session {
            None => self.put_in_sequence(put, time),
            Some(session) => {
                if session_live {
                    self.put_in_sequence(put, time)
                } else {
                    Ok(refusal(self.alloc, OpReply::SessionDoesNotExist { session }))
                }
            }
        }
    }

    /// A delete. It is refused where the key has no record, or one that doesn't meet the expectation: then everything stays as
    /// it was, as where memory runs out. It costs two binary searches and one move of the records behind the key.
    pub fn delete(&mut self, delete: &Delete) -> Result<Change, NoMemory>
        ensures made { IfOk result (λ change. Makes (λ s. delete_on s delete.now) self.old self.new change) }
        ensures gone { IfOk result (λ change. change.gone ≡ deleted_by change.reply delete.now.key self.old.records) }
        ensures others { self.new.other ≡ self.old.other }
        ensures versions { self.new.next_version ≡ self.old.next_version }
        ensures err { OnErr result (self.new ≡ self.old) }
    {
        match self.table.get(&delete.key) {
            None => Ok(refusal(self.alloc, OpReply::KeyNotFound)),
            Some(old) => {
                if meets(delete.expect, Some(old)) {
                    self.remove(&delete.key)
                } else {
                    let found = Some(old.meta.version);
                    Ok(refusal(self.alloc, OpReply::UnexpectedVersion { found }))
                }
            }
        }
    }

    /// Removes the records of the range. Where memory runs out, everything stays as it was. It costs two binary searches, the
    /// length of the range and one move of the records behind it.
    pub fn delete_range(&mut self, range: &KeyRange) -> Result<Change, NoMemory>
        ensures made { IfOk result (λ change. Makes (λ s. range_on s range.now) self.old self.new change) }
        ensures gone { IfOk result (λ change. change.gone ≡ filter (λ (r : Record). in_range range.now r.key) self.old.records) }
        ensures others { self.new.other ≡ self.old.other }
        ensures versions { self.new.next_version ≡ self.old.next_version }
        ensures err { OnErr result (self.new ≡ self.old) }
    {
        self.remove_range(range)
    }

    /// Takes the record of the key out and gives it, if it is there. It takes no memory, and costs a binary search and one
    /// move of the records behind the key.
    pub fn take(&mut self, key: &Key) -> Option<Record>
        ensures taken { result ≡ record_of key.now self.old.records }
        ensures after { self.new ≡ record self.old { records = without_key key.now self.old.records } }
        ensures was_sound { IsSound self.old }
    {
        let old = self.table.remove(key);
        self.held -= weight_if_some(old.as_ref());
        old
    }

    fn remove(&mut self, key: &Key) -> Result<Change, NoMemory>
        ensures removed { IfOk result (λ change. IsRemoved key.now self.old self.new change) }
        ensures err { OnErr result (self.new ≡ self.old) }
    {
        let notice = Notice::Deleted {
            key: key.try_clone()?,
        };
        let room = Vec::with_capacity(self.alloc, 1)?;
        let old = self.table.remove(key);
        let gone = list_of(room, old);
        self.held -= records_weight(gone.as_slice());
        Ok(Change {
            reply: OpReply::Deleted,
            gone,
            notice: Some(notice),
        })
    }

    fn remove_range(&mut self, range: &KeyRange) -> Result<Change, NoMemory>
        ensures ranged { IfOk result (λ change. IsRanged range.now self.old self.new change) }
        ensures err { OnErr result (self.new ≡ self.old) }
    {
        let copy = copy_range(range)?;
        let gone = self.table.remove_range(self.alloc, range)?;
        self.held -= records_weight(gone.as_slice());
        let removed = gone.len() as u64;
        Ok(Change {
            reply: OpReply::Ranged { removed },
            gone,
            notice: range_notice(copy, removed),
        })
    }

    /// The key that the put goes to, or the first group of its sequence that is spent.
    fn key_of(&self, put: &Put) -> Result<Result<Key, u32>, NoMemory>
        requires faultless { put_fault put.now ≡ None }
        ensures { IfOk result (λ key. key ≡ put_key (shard_at 0 self.now) put.now put.now.deltas) }
    {
        if put.deltas.is_empty() {
            return Ok(Ok(put.key.try_clone()?));
        }
        next_key(self.alloc, &self.table, &put.key, put.deltas.as_slice())
    }

    /// A put whose session, if it names one, is open.
    fn put_in_sequence(&mut self, put: &Put, time: u64) -> Result<Change, NoMemory>
        requires next { self.old.next_version < 2 ^ 63 }
        requires lawful { IsTrue (put_form.is_lawful put.now) }
        requires faultless { put_fault put.now ≡ None }
        ensures made { IfOk result (λ change. MakesAt time (λ s. put_under_given s self.old.other put.now (put_key s put.now put.now.deltas)) self.old self.new change) }
        ensures gone { IfOk result (λ change. change.gone ≡ replaced_by change.reply self.old.records) }
        ensures others { self.new.other ≡ self.old.other }
        ensures versions { self.new.next_version ≤ self.old.next_version + 1 }
        ensures err { OnErr result (self.new ≡ self.old) }
    {
        match self.key_of(put)? {
            Ok(key) => self.put_at_key(put, &key, time),
            Err(group) => Ok(refusal(self.alloc, OpReply::SequenceSpent { group })),
        }
    }

    /// The record that a put makes under the key, and the weight of the records with it.
    fn made(&self, put: &Put, key: &Key, time: u64) -> Result<(Record, u64), NoMemory>
        requires small { sum_by entry_weight put.now.indexes ≤ weight_limit }
        ensures added { IfOk result (λ m. m.0 ≡ put_record (shard_at time self.now) put.now key.now) }
        ensures weight { IfOk result (λ m. m.1 ≡ sum_by weight_of_record (with_record m.0 self.now.records)) }
        ensures modifications { IfOk result (λ m. m.0.meta.modifications ≤ self.now.next_version) }
        ensures bounded { IfOk result (λ m. m.1 ≤ 2 ^ 32) }
    {
        let old = self.table.get(key);
        let meta = meta_over(self.next_version, time, old);
        let added = Record {
            key: key.try_clone()?,
            value: put.value.try_clone()?,
            meta,
            session: put.session,
            indexes: copy_entries(self.alloc, put.indexes.as_slice())?,
        };
        let held = weight_with(self.held, &added, old);
        Ok((added, held))
    }

    /// Stores the record, with which the records have this weight.
    fn store(&mut self, added: Record, held: u64) -> Result<Change, NoMemory>
        requires next { self.old.next_version < 2 ^ 63 }
        requires version { added.meta.version ≡ self.old.next_version }
        requires modifications { added.meta.modifications ≤ self.old.next_version }
        requires weight { held ≡ sum_by weight_of_record (with_record added self.old.records) }
        requires light { held + self.old.other ≤ weight_limit }
        ensures stored { IfOk result (λ change. IsStored added self.old self.new change) }
        ensures err { OnErr result (self.new ≡ self.old) }
    {
        let key = added.key.try_clone()?;
        let notice = put_notice(self.table.get(&key), &key, added.meta.version)?;
        let reply = OpReply::Put {
            key,
            meta: added.meta,
        };
        let room = Vec::with_capacity(self.alloc, 1)?;
        let old = self.table.insert(added)?;
        self.next_version += 1;
        self.held = held;
        Ok(Change {
            reply,
            gone: list_of(room, old),
            notice: Some(notice),
        })
    }

    /// A put whose expectation holds.
    fn put_unless_full(&mut self, put: &Put, key: &Key, time: u64) -> Result<Change, NoMemory>
        requires next { self.old.next_version < 2 ^ 63 }
        requires small { sum_by entry_weight put.now.indexes ≤ weight_limit }
        ensures made { IfOk result (λ change. MakesAt time (λ s. unless_full s (put_record s put.now key.now) (weight_given s self.old.other put.now key.now)) self.old self.new change) }
        ensures gone { IfOk result (λ change. change.gone ≡ replaced_by change.reply self.old.records) }
        ensures others { self.new.other ≡ self.old.other }
        ensures versions { self.new.next_version ≤ self.old.next_version + 1 }
        ensures err { OnErr result (self.new ≡ self.old) }
    {
        let (added, held) = self.made(put, key, time)?;
        let weight = held + self.other;
        if weight > WEIGHT_LIMIT {
            let reply = OpReply::ShardFull {
                weight,
                limit: WEIGHT_LIMIT,
            };
            return Ok(refusal(self.alloc, reply));
        }
        self.store(added, held)
    }

    /// A put under its key: the expectation is tested first, and then the weight.
    fn put_at_key(&mut self, put: &Put, key: &Key, time: u64) -> Result<Change, NoMemory>
        requires next { self.old.next_version < 2 ^ 63 }
        requires small { sum_by entry_weight put.now.indexes ≤ weight_limit }
        ensures made { IfOk result (λ change. MakesAt time (λ s. put_at_given s self.old.other put.now key.now) self.old self.new change) }
        ensures gone { IfOk result (λ change. change.gone ≡ replaced_by change.reply self.old.records) }
        ensures others { self.new.other ≡ self.old.other }
        ensures versions { self.new.next_version ≤ self.old.next_version + 1 }
        ensures err { OnErr result (self.new ≡ self.old) }
    {
        let old = self.table.get(key);
        if meets(put.expect, old) {
            self.put_unless_full(put, key, time)
        } else {
            let found = version_of(old);
            Ok(refusal(self.alloc, OpReply::UnexpectedVersion { found }))
        }
    }
}
