//! Queries: what is found, as a record or as a page.
ghost use Rattle.std.specs.Prelude.{◌≡◌, Some, map, filter, IfOk};
ghost use Rattle.std.specs.List.{filter_map};
ghost use Rattle.ox_order.specs.Range.{in_range};
ghost use Rattle.ox_ops.specs.declared.answer.Record.{Record as RecordSpec};
ghost use Rattle.ox_ops.specs.State.{record_of};
ghost use Rattle.ox_ops.specs.Answer.{compared, got, matching, keys_page, records_page, notices_after, kept_alive, answer_to};
ghost use Rattle.ox_ops.specs.Page.{key_size, record_size};
ghost use Rattle.ox_ops.specs.Filling.{Holds};
ghost use Rattle.ox_index.specs.declared.added.Added.{Added as AddedSpec};
ghost use Rattle.ox_puts.specs.Records.{records_in};
ghost use Rattle.ox_shard.specs.Parts.{state_of, IsTied};

use crate::parts::{Parts, records_are_sound};
use ox_index::Added;
use ox_notice::AfterFault;
use ox_ops::{Compare, KeyRange, Measured, Page, Record, ShardAnswer, ShardQuery};
use ox_puts::Records;
use ox_table::TableRange;
use ox_types::{Key, NoMemory, Octets};
use std::alloc::Global;

/// The page of the keys of these records.
fn fill_keys(alloc: Global, pairs: TableRange<'_, Record>) -> Result<Page<Key>, NoMemory>
    ensures { IfOk result (λ page. Holds key_size page (map (λ (r : RecordSpec). r.key) (records_in pairs.entry))) }
{
    let mut page = Page::empty(alloc);
    for (_, found) in pairs {
        if !page.offer(found.key.size()) {
            return Ok(page);
        }
        page.push(found.key.try_clone()?)?;
    }
    Ok(page)
}

/// The page of these records.
fn fill_records(alloc: Global, pairs: TableRange<'_, Record>) -> Result<Page<Record>, NoMemory>
    ensures { IfOk result (λ page. Holds record_size page (map (λ (r : RecordSpec). r) (records_in pairs.entry))) }
{
    let mut page = Page::empty(alloc);
    for (_, found) in pairs {
        if !page.offer(found.size()) {
            return Ok(page);
        }
        page.push(found.try_clone(alloc)?)?;
    }
    Ok(page)
}

/// The page of the keys of the records with these entries.
fn fill_added_keys(alloc: Global, entries: &[Added]) -> Result<Page<Key>, NoMemory>
    ensures { IfOk result (λ page. Holds key_size page (map (λ (a : AddedSpec). a.key) entries.now)) }
{
    let mut page = Page::empty(alloc);
    for added in entries {
        if !page.offer(added.key.size()) {
            return Ok(page);
        }
        page.push(added.key.try_clone()?)?;
    }
    Ok(page)
}

/// The page of the records with these entries.
fn fill_added_records(
    alloc: Global,
    entries: &[Added],
    records: &Records,
) -> Result<Page<Record>, NoMemory>
    ensures { IfOk result (λ page. Holds record_size page (filter_map (λ (a : AddedSpec). record_of a.key records.now.records) entries.now)) }
{
    let mut page = Page::empty(alloc);
    for added in entries {
        match records.get(Compare::Equal, &added.key) {
            None => continue,
            Some(found) => {
                if !page.offer(found.size()) {
                    return Ok(page);
                }
                page.push(found.try_clone(alloc)?)?;
            }
        }
    }
    Ok(page)
}

impl Parts {
    /// A copy of the record that the comparison wants.
    fn get(&self, compare: Compare, key: &Key) -> Result<Option<Record>, NoMemory>
        ensures { IfOk result (λ found. found ≡ compared (λ (r : RecordSpec). r.key) compare key.now self.now.records.records) }
    {
        match self.records.get(compare, key) {
            None => Ok(None),
            Some(found) => Ok(Some(found.try_clone(self.alloc)?)),
        }
    }

    /// A copy of the record that the comparison of secondary keys wants in the index.
    fn get_by(
        &self,
        compare: Compare,
        second: &Key,
        name: &Octets,
    ) -> Result<Option<Record>, NoMemory>
        requires { IsTied self.now }
        ensures { IfOk result (λ found. found ≡ got (state_of self.now) compare second.now (Some name.now)) }
    {
        records_are_sound(&self.records);
        match self.lists.index.lookup(name.as_slice(), compare, second) {
            None => Ok(None),
            Some(key) => self.get(Compare::Equal, key),
        }
    }

    fn list(&self, range: &KeyRange) -> Result<ShardAnswer, NoMemory>
        ensures { IfOk result (λ answer. answer ≡ keys_page (map (λ (r : RecordSpec). r.key) (filter (λ (r : RecordSpec). in_range range.now r.key) self.now.records.records))) }
    {
        let page = fill_keys(self.alloc, self.records.scan(range))?;
        let (keys, more) = page.finish();
        Ok(ShardAnswer::Keys { keys, more })
    }

    fn list_by(&self, range: &KeyRange, name: &Octets) -> Result<ShardAnswer, NoMemory>
        requires { IsTied self.now }
        ensures { IfOk result (λ answer. answer ≡ keys_page (map (λ (r : RecordSpec). r.key) (matching (state_of self.now) range.now (Some name.now)))) }
    {
        records_are_sound(&self.records);
        let entries = self.lists.index.within(name.as_slice(), range);
        let page = fill_added_keys(self.alloc, entries)?;
        let (keys, more) = page.finish();
        Ok(ShardAnswer::Keys { keys, more })
    }

    fn scan(&self, range: &KeyRange) -> Result<ShardAnswer, NoMemory>
        ensures { IfOk result (λ answer. answer ≡ records_page (filter (λ (r : RecordSpec). in_range range.now r.key) self.now.records.records)) }
    {
        let page = fill_records(self.alloc, self.records.scan(range))?;
        let (records, more) = page.finish();
        Ok(ShardAnswer::Records { records, more })
    }

    fn scan_by(&self, range: &KeyRange, name: &Octets) -> Result<ShardAnswer, NoMemory>
        requires { IsTied self.now }
        ensures { IfOk result (λ answer. answer ≡ records_page (matching (state_of self.now) range.now (Some name.now))) }
    {
        records_are_sound(&self.records);
        let entries = self.lists.index.within(name.as_slice(), range);
        let page = fill_added_records(self.alloc, entries, &self.records)?;
        let (records, more) = page.finish();
        Ok(ShardAnswer::Records { records, more })
    }

    fn notices_past(&self, offset: u64, skip: u64) -> Result<ShardAnswer, NoMemory>
        ensures { IfOk result (λ answer. answer ≡ notices_after (state_of self.now) offset skip) }
    {
        match self.notices.after(offset, skip) {
            Ok(page) => Ok(ShardAnswer::Notices {
                items: page.items,
                more: page.more,
            }),
            Err(AfterFault::NotRetained(refused)) => Ok(ShardAnswer::NotRetained {
                asked: refused.asked,
                low: refused.low,
            }),
            Err(AfterFault::NoMemory) => Err(NoMemory),
        }
    }

    fn heard(&self, session: u64) -> ShardAnswer
        ensures { result ≡ kept_alive (state_of self.now) session }
    {
        if self.lists.sessions.live(session) {
            ShardAnswer::Alive
        } else {
            ShardAnswer::SessionDoesNotExist { session }
        }
    }

    #[tactic(auto, unfolding(ox_ops::specs::Answer::answer_to))]
    pub(crate) fn answer(&self, query: &ShardQuery) -> Result<ShardAnswer, NoMemory>
        requires { IsTied self.now }
        ensures { IfOk result (λ answer. answer ≡ answer_to (state_of self.now) query.now) }
    {
        match query {
            ShardQuery::Get { compare, key, by } => match by {
                None => Ok(ShardAnswer::Got(self.get(*compare, key)?)),
                Some(name) => Ok(ShardAnswer::Got(self.get_by(*compare, key, name)?)),
            },
            ShardQuery::List { range, by } => match by {
                None => self.list(range),
                Some(name) => self.list_by(range, name),
            },
            ShardQuery::Scan { range, by } => match by {
                None => self.scan(range),
                Some(name) => self.scan_by(range, name),
            },
            ShardQuery::Notices { after, skip } => self.notices_past(*after, *skip),
            ShardQuery::KeepAlive { session } => Ok(self.heard(*session)),
        }
    }
}
