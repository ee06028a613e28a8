//! Which records belong to which session, and which index entries they have.
ghost use Rattle.std.specs.Prelude.{◌≡◌, ◌||◌, ◌&&◌, ℕ, [], not, IfOk, OnOk};
ghost use Rattle.ox_ops.specs.declared.answer.Record.{Record as RecordSpec};
ghost use Rattle.ox_session.specs.Members.{sessions_of, members_in};
ghost use Rattle.ox_index.specs.declared.added.Added.{Added};
ghost use Rattle.ox_index.specs.Pairs.{has_added};
ghost use Rattle.ox_puts.specs.Records.{IsLive};
ghost use Rattle.ox_shard.specs.Lists.{entries_at, added_by, all_added, left_by, left_by_all, stored_key, joined_by, stored_entries, IsOpenIfSome, IsOpenFor};

use ox_index::Index;
use ox_ops::{IndexEntry, OpReply, Put, Record};
use ox_session::Sessions;
use ox_types::{Key, NoMemory};
use std::alloc::Global;

/// The open sessions with their members, and the indexes. Those who change the records keep them true.
#[derive(Debug, Drop)]
pub struct Lists {
    pub sessions: Sessions,
    pub index: Index,
}

/// Takes these entries of a record with this key out of the index.
pub fn drop_entries(index: &mut Index, key: &Key, entries: &[IndexEntry])
    ensures { (q : Added) → has_added q index.new ≡ (not (has_added q (entries_at key.now entries.now)) && has_added q index.old) }
{
    for entry in entries {
        index.drop_entry(entry, key);
    }
}

fn add_entries(index: &mut Index, key: &Key, entries: &[IndexEntry]) -> Result<(), NoMemory>
    ensures { OnOk result ((q : Added) → has_added q index.new ≡ (has_added q (entries_at key.now entries.now) || has_added q index.old)) }
{
    for entry in entries {
        index.add(entry, key)?;
    }
    Ok(())
}

impl Lists {
    pub fn empty(alloc: Global) -> Result<Lists, NoMemory>
        ensures { IfOk result (λ lists. lists ≡ record { sessions = []; index = [] }) }
    {
        Ok(Lists {
            sessions: Sessions::empty(alloc)?,
            index: Index::empty(alloc)?,
        })
    }

    /// Whether the session is open, if there is one.
    pub fn is_live(&self, session: Option<u64>) -> bool
        ensures { IsLive result session (sessions_of self.now.sessions) }
    {
        match session {
            None => true,
            Some(id) => self.sessions.live(id),
        }
    }

    /// A record that is gone leaves its session and its indexes. It costs a look-up for each.
    fn forget(&mut self, gone: &Record)
        ensures sessions { sessions_of self.new.sessions ≡ sessions_of self.old.sessions }
        ensures members { (q : ℕ) → members_in q self.new.sessions ≡ left_by q gone.now (members_in q self.old.sessions) }
        ensures entries { (q : Added) → has_added q self.new.index ≡ (not (has_added q (added_by gone.now)) && has_added q self.old.index) }
    {
        self.leave(gone);
        drop_entries(&mut self.index, &gone.key, gone.indexes.as_slice());
    }

    fn leave(&mut self, gone: &Record)
        ensures sessions { sessions_of self.new.sessions ≡ sessions_of self.old.sessions }
        ensures members { (q : ℕ) → members_in q self.new.sessions ≡ left_by q gone.now (members_in q self.old.sessions) }
        ensures index { self.new.index ≡ self.old.index }
    {
        if let Some(id) = gone.session {
            self.sessions.leave(id, &gone.key);
        }
    }

    /// Records that are gone leave their sessions and their indexes.
    pub fn forget_all(&mut self, gone: &[Record])
        ensures sessions { sessions_of self.new.sessions ≡ sessions_of self.old.sessions }
        ensures members { (q : ℕ) → members_in q self.new.sessions ≡ left_by_all q gone.now (members_in q self.old.sessions) }
        ensures entries { (q : Added) → has_added q self.new.index ≡ (not (has_added q (all_added gone.now)) && has_added q self.old.index) }
    {
        for item in gone {
            self.forget(item);
        }
    }

    fn join(&mut self, key: &Key, session: Option<u64>) -> Result<(), NoMemory>
        requires { IsOpenIfSome session (sessions_of self.old.sessions) }
        ensures sessions { OnOk result (sessions_of self.new.sessions ≡ sessions_of self.old.sessions) }
        ensures members { OnOk result ((r : RecordSpec) → r.session ≡ session → (q : ℕ) → members_in q self.new.sessions ≡ joined_by q r (Some key.now) (members_in q self.old.sessions)) }
        ensures index { OnOk result (self.new.index ≡ self.old.index) }
    {
        match session {
            None => Ok(()),
            Some(id) => self.sessions.join(id, key),
        }
    }

    /// The record that the put stored, if the reply says so, joins its session and its indexes. It costs a look-up for each.
    pub fn enter(&mut self, put: &Put, reply: &OpReply) -> Result<(), NoMemory>
        requires { IsOpenFor (stored_key reply.now) put.now.session (sessions_of self.old.sessions) }
        ensures sessions { OnOk result (sessions_of self.new.sessions ≡ sessions_of self.old.sessions) }
        ensures members { OnOk result ((r : RecordSpec) → r.session ≡ put.now.session → (q : ℕ) → members_in q self.new.sessions ≡ joined_by q r (stored_key reply.now) (members_in q self.old.sessions)) }
        ensures entries { OnOk result ((q : Added) → has_added q self.new.index ≡ (has_added q (stored_entries put.now.indexes (stored_key reply.now)) || has_added q self.old.index)) }
    {
        let OpReply::Put { key, .. } = reply else {
            return Ok(());
        };
        self.join(key, put.session)?;
        add_entries(&mut self.index, key, put.indexes.as_slice())
    }
}
