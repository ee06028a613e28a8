ghost use Rattle.std.specs.Prelude.{◌≡◌, ◌==◌, ℕ, [], true, false, not, None, Some, IfOk, OnOk, OnErr, map, filter, if◌then◌else◌};
ghost use Rattle.ox_ops.specs.State.{is_open, timer_of};
ghost use Rattle.ox_session.specs.Keys.{with_key, without_key, KeysRise};
ghost use Rattle.ox_session.specs.Members.{sessions_of, members_in, with_session};

use crate::roster::Roster;
use ox_types::{Key, List, NoMemory, Timer};
use std::alloc::Global;
use std::collections::BTreeMap;
use std::marker::Model;

/// The open sessions and the keys that joined them. Contracts see them as the sessions by rising id, each with its keys in
/// the order of keys.
#[derive(Debug, Drop)]
pub struct Sessions {
    alloc: Global,
    rosters: BTreeMap<u64, Roster>,
}

impl Model for Sessions {
    ghost use Rattle.std.specs.Prelude.{List, ℕ};
    ghost use Rattle.std.specs.BTreeMap.{IsOrdered};
    ghost use Rattle.std.specs.Ordering.{nat_cmp};
    ghost use Rattle.ox_session.specs.declared.roster.Roster.{Roster};

    ghost Value = { List (ℕ × Roster) };

    ghost view = { λ s. s.rosters.entries };

    ghost invariant = { λ s. IsOrdered nat_cmp s.rosters };
}

impl Sessions {
    pub fn empty(alloc: Global) -> Result<Sessions, NoMemory>
        ensures { IfOk result (λ sessions. sessions ≡ []) }
    {
        Ok(Sessions {
            alloc,
            rosters: BTreeMap::new(alloc),
        })
    }

    /// Opens a session (the timeout in ms) with no keys. Where memory runs out, nothing changes.
    pub fn open_session(&mut self, id: u64, timeout: u64) -> Result<(), NoMemory>
        requires { is_open id (sessions_of self.old) ≡ false }
        ensures sessions { OnOk result (sessions_of self.new ≡ with_session (record { id = id; timeout = timeout }) (sessions_of self.old)) }
        ensures members { OnOk result ((q : ℕ) → members_in q self.new ≡ members_in q self.old) }
        ensures err { OnErr result (self.new ≡ self.old) }
    {
        let roster = Roster::empty(self.alloc, timeout)?;
        self.rosters.insert(id, roster)?;
        Ok(())
    }

    /// Closes the session and gives its keys in the order of keys, or None where it isn't open. Where memory runs out,
    /// nothing changes. It costs a look-up and copies of the keys.
    pub fn close_session(&mut self, id: u64) -> Result<Option<List<Key>>, NoMemory>
        ensures keys { IfOk result (λ keys. keys ≡ (if is_open id (sessions_of self.old) then Some (members_in id self.old) else None)) }
        ensures sessions { OnOk result (sessions_of self.new ≡ filter (λ s. not (s.id == id)) (sessions_of self.old)) }
        ensures members { OnOk result ((q : ℕ) → members_in q self.new ≡ (if q == id then [] else members_in q self.old)) }
        ensures err { OnErr result (self.new ≡ self.old) }
    {
        let keys = match self.rosters.get(&id) {
            None => return Ok(None),
            Some(roster) => roster.copies(self.alloc)?,
        };
        self.rosters.remove(&id);
        Ok(Some(keys))
    }

    /// Whether the session is open, at the cost of a look-up.
    pub fn live(&self, id: u64) -> bool
        ensures { result ≡ is_open id (sessions_of self.now) }
    {
        self.rosters.contains_key(&id)
    }

    /// The key joins an open session. A key that joined before changes nothing and takes no memory. Where memory runs out,
    /// nothing changes. It costs a look-up and one move of the session's keys past it.
    pub fn join(&mut self, id: u64, key: &Key) -> Result<(), NoMemory>
        requires { is_open id (sessions_of self.old) ≡ true }
        ensures sessions { sessions_of self.new ≡ sessions_of self.old }
        ensures members { OnOk result ((q : ℕ) → members_in q self.new ≡ (if q == id then with_key key.now (members_in q self.old) else members_in q self.old)) }
        ensures err { OnErr result (self.new ≡ self.old) }
        ensures was_in_order { KeysRise (members_in id self.old) }
    {
        let Some(roster) = self.rosters.get_mut(&id) else {
            return Ok(());
        };
        roster.join(key)
    }

    /// The key leaves the session, if it is there. It costs a look-up and one move of the session's keys past it.
    pub fn leave(&mut self, id: u64, key: &Key)
        ensures sessions { sessions_of self.new ≡ sessions_of self.old }
        ensures members { (q : ℕ) → members_in q self.new ≡ (if q == id then without_key key.now (members_in q self.old) else members_in q self.old) }
        ensures was_in_order { KeysRise (members_in id self.old) }
    {
        let Some(roster) = self.rosters.get_mut(&id) else {
            return;
        };
        roster.leave(key);
    }

    /// Copies of the keys of the session in the order of keys: none where it isn't open. It costs a look-up and the copies.
    pub fn members(&self, id: u64) -> Result<List<Key>, NoMemory>
        ensures { IfOk result (λ keys. keys ≡ members_in id self.now) }
    {
        match self.rosters.get(&id) {
            None => Ok(List::new(self.alloc)),
            Some(roster) => roster.copies(self.alloc),
        }
    }

    /// The open sessions by rising id with their timeouts, at their cost.
    pub fn timers(&self) -> Result<List<Timer>, NoMemory>
        ensures { IfOk result (λ timers. timers ≡ map timer_of (sessions_of self.now)) }
    {
        let mut timers = List::new(self.alloc);
        for (id, roster) in self.rosters.iter() {
            timers.push(Timer {
                id: *id,
                timeout: roster.timeout,
            })?;
        }
        Ok(timers)
    }
}
