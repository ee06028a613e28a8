//! The keys that joined one session.
ghost use Rattle.std.specs.Prelude.{◌≡◌, ◌++◌, [], IfOk, OnOk, OnErr, map};
ghost use Rattle.ox_session.specs.Keys.{keys_in, with_key, without_key, KeysRise};

use ox_order::{Hi, KeyRange, Lo};
use ox_table::Table;
use ox_types::{Key, List, NoMemory};
use std::alloc::Global;

/// The timeout of a session (ms) and its keys.
#[derive(Debug, Drop)]
pub struct Roster {
    pub timeout: u64,
    pub keys: Table<()>,
}

impl Roster {
    pub fn empty(alloc: Global, timeout: u64) -> Result<Roster, NoMemory>
        ensures { IfOk result (λ roster. (roster.timeout ≡ timeout) × (roster.keys ≡ [])) }
    {
        let keys = Table::empty(alloc)?;
        Ok(Roster { timeout, keys })
    }

    /// Adds the key, unless it is there; then it takes no memory.
    pub fn join(&mut self, key: &Key) -> Result<(), NoMemory>
        ensures ok { OnOk result (keys_in self.new ≡ with_key key.now (keys_in self.old)) }
        ensures err { OnErr result (self.new ≡ self.old) }
        ensures timeout { self.new.timeout ≡ self.old.timeout }
        ensures was_in_order { KeysRise (keys_in self.old) }
    {
        if self.keys.get(key).is_some() {
            return Ok(());
        }
        let key = key.try_clone()?;
        self.keys.insert(key, ())?;
        Ok(())
    }

    /// Takes the key out, if it is there.
    pub fn leave(&mut self, key: &Key)
        ensures keys { keys_in self.new ≡ without_key key.now (keys_in self.old) }
        ensures timeout { self.new.timeout ≡ self.old.timeout }
        ensures was_in_order { KeysRise (keys_in self.old) }
    {
        let _ = self.keys.remove(key);
    }

    /// Copies of the keys, in their order.
    pub fn copies(&self, alloc: Global) -> Result<List<Key>, NoMemory>
        ensures { IfOk result (λ keys. keys ≡ keys_in self.now) }
    {
        let whole = KeyRange {
            lo: Lo::Start,
            hi: Hi::End,
        };
        let mut keys = List::new(alloc);
        for (key, _) in self.keys.range(&whole) {
            keys.push(key.try_clone()?)?;
        }
        Ok(keys)
    }
}
