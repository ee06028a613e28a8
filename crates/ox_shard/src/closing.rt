//! Opening and closing sessions.
ghost use Rattle.std.specs.Prelude.{◌≡◌, ◌<◌, ◌&&◌, ◌*◌, ◌+◌, ℕ, [], not, map, length, option_to_list, All, IfOk, OnOk};
ghost use Rattle.ox_ops.specs.declared.answer.Record.{Record as RecordSpec};
ghost use Rattle.ox_ops.specs.declared.notice.Notice.TheVariants as notice;
ghost use Rattle.ox_ops.specs.State.{Session, record_of, without_key, members_of, is_member};
ghost use Rattle.ox_ops.specs.Weight.{session_weight};
ghost use Rattle.ox_ops.specs.Apply.{open_on, close_on};
ghost use Rattle.ox_session.specs.Members.{sessions_of};
ghost use Rattle.ox_index.specs.declared.added.Added.{Added};
ghost use Rattle.ox_index.specs.Pairs.{has_added};
ghost use Rattle.ox_puts.specs.Records.{IsSound};
ghost use Rattle.ox_shard.specs.Done.{applied_of};
ghost use Rattle.ox_shard.specs.Lists.{HasEntriesOf};
ghost use Rattle.ox_shard.specs.Closing.{without_keys};
ghost use Rattle.ox_shard.specs.Parts.{state_of, IsTied, IsStep};

use crate::done::Done;
use crate::lists::drop_entries;
use crate::parts::Parts;
use ox_index::Index;
use ox_ops::{Notice, OpReply};
use ox_puts::Records;
use ox_types::{Key, List, NoMemory, WEIGHT_LIMIT};
use std::alloc::Global;

/// What an open session weighs.
const SESSION_WEIGHT: u64 = 64;

/// Takes the record of the key out, and its entries out of the index.
fn take_record(records: &mut Records, index: &mut Index, key: &Key)
    ensures records { records.new ≡ record records.old { records = without_key key.now records.old.records } }
    ensures entries { HasEntriesOf index.old records.old.records → HasEntriesOf index.new records.new.records }
{
    if let Some(gone) = records.take(key) {
        drop_entries(index, &gone.key, gone.indexes.as_slice());
    }
}

/// Takes the records of these keys out, with a notice for each key.
fn take_records(
    alloc: Global,
    records: &mut Records,
    index: &mut Index,
    keys: List<Key>,
) -> Result<List<Notice>, NoMemory>
    ensures notices { IfOk result (λ notices. notices ≡ map notice.Deleted keys) }
    ensures records { OnOk result (records.new ≡ record records.old { records = without_keys keys records.old.records }) }
    ensures entries { OnOk result (HasEntriesOf index.old records.old.records → HasEntriesOf index.new records.new.records) }
{
    let mut notices = List::new(alloc);
    for key in keys.into_vec() {
        take_record(records, index, &key);
        notices.push(Notice::Deleted { key })?;
    }
    Ok(notices)
}

impl Parts {
    /// A session is named by the offset of its entry.
    pub(crate) fn open(&mut self, offset: u64, timeout: u64) -> Result<Done, NoMemory>
        requires tied { IsTied self.old }
        requires ids { All (λ (x : Session). x.id < offset) (sessions_of self.old.lists.sessions) }
        ensures done { IfOk result (λ done. applied_of (state_of self.new) done ≡ open_on (state_of self.old) offset timeout) }
        ensures tied { OnOk result (IsTied self.new) }
        ensures step { OnOk result (IsStep offset self.old self.new) }
    {
        if !self.records.charge(SESSION_WEIGHT) {
            let weight = self.records.weight() + SESSION_WEIGHT;
            let reply = OpReply::ShardFull {
                weight,
                limit: WEIGHT_LIMIT,
            };
            return Ok(Done::alone(self.alloc, reply)?);
        }
        self.lists.sessions.open_session(offset, timeout)?;
        Ok(Done::alone(self.alloc, OpReply::Opened { session: offset })?)
    }

    /// A close, or an expiry: the session and its members go. It costs a look-up, and for each member a look-up and one move of
    /// the records behind it.
    pub(crate) fn close(&mut self, offset: u64, id: u64) -> Result<Done, NoMemory>
        requires { IsTied self.old }
        ensures done { IfOk result (λ done. applied_of (state_of self.new) done ≡ close_on (state_of self.old) id) }
        ensures tied { OnOk result (IsTied self.new) }
        ensures step { OnOk result (IsStep offset self.old self.new) }
    {
        let Some(members) = self.lists.sessions.close_session(id)? else {
            let reply = OpReply::SessionDoesNotExist { session: id };
            return Ok(Done::alone(self.alloc, reply)?);
        };
        self.records.refund(SESSION_WEIGHT);
        let removed = members.len() as u64;
        let notices = take_records(
            self.alloc,
            &mut self.records,
            &mut self.lists.index,
            members,
        )?;
        let mut done = Done::alone(self.alloc, OpReply::Closed { removed })?;
        done.notices = notices;
        Ok(done)
    }
}
