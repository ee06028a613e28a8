// What a log says of itself.
ghost use Rattle.std.specs.Prelude.{◌≡◌, ◌-◌, IfOk};
ghost use Rattle.ox_types.specs.Durable.{head_of, table_of};
ghost use Rattle.ox_journal.specs.Chain.{in_order};
ghost use Rattle.ox_wal.specs.Blocks.{blocks_used};
ghost use Rattle.ox_wal.specs.Follow.{entry_at, term_of};
ghost use Rattle.ox_wal.specs.State.{state_of};
ghost use Rattle.std.specs.Option.{option_copied};

use crate::entries::{copy_entry, last_of, number_of};
use crate::log::Log;
use crate::runs::runs_of;
use crate::wal::Wal;
use ox_outside::Disk;
use ox_types::{Entry, Head, NoMemory, Seat, Term, TermTable};
use std::alloc::Global;

impl Log {
    /// The head of the log.
    fn head(&self) -> Head
        ensures { result ≡ head_of (state_of self.now) }
    {
        let term = Term(last_of(number_of(self.base.term), &self.entries));
        let count = self.base.count + self.entries.len() as u64;
        Head { term, count }
    }

    /// The entry at an offset, where the log has it.
    fn entry_ref(&self, offset: u64) -> Option<&Entry>
        ensures { option_copied result ≡ entry_at (state_of self.now) offset }
    {
        if offset < self.base.count {
            return None;
        }
        self.entries.get((offset - self.base.count) as usize)
    }

    /// The term of an offset.
    fn term_at(&self, offset: u64) -> Option<Term>
        ensures { result ≡ term_of (state_of self.now) offset }
    {
        if offset < self.base.count && self.base.count - offset == 1 {
            return Some(self.base.term);
        }
        match self.entry_ref(offset) {
            Some(entry) => Some(entry.term),
            None => None,
        }
    }

    /// A copy of the entry at an offset, where the log has it.
    fn entry(&self, offset: u64) -> Result<Option<Entry>, NoMemory>
        ensures { IfOk result (λ entry. entry ≡ entry_at (state_of self.now) offset) }
    {
        match self.entry_ref(offset) {
            Some(entry) => {
                let copy = copy_entry(entry)?;
                Ok(Some(copy))
            }
            None => Ok(None),
        }
    }

    /// The term table.
    fn table(&self, alloc: Global) -> Result<TermTable, NoMemory>
        ensures { IfOk result (λ table. table ≡ table_of (state_of self.now)) }
    {
        let runs = runs_of(alloc, &self.entries)?;
        Ok(TermTable {
            base: self.base,
            runs,
        })
    }
}

impl<D: Disk> Wal<D> {
    /// The term of the replica: 0 at first.
    pub fn term(&self) -> Term
        ensures { result ≡ (state_of self.now.log).term }
    {
        self.log.term
    }

    /// What the replica does in its term.
    pub fn seat(&self) -> Seat
        ensures { result ≡ (state_of self.now.log).seat }
    {
        self.log.seat
    }

    /// The head of the log.
    pub fn head(&self) -> Head
        ensures { result ≡ head_of (state_of self.now.log) }
    {
        self.log.head()
    }

    /// The head of the snapshot, with term and count 0 where there is none.
    pub fn base(&self) -> Head
        ensures { result ≡ (state_of self.now.log).base }
    {
        self.log.base
    }

    /// The term of the entry at an offset; the snapshot's last offset has its term too. It costs a look-up.
    pub fn term_at(&self, offset: u64) -> Option<Term>
        ensures { result ≡ term_of (state_of self.now.log) offset }
    {
        self.log.term_at(offset)
    }

    /// The term table of the log. It costs its runs, and a binary search for each.
    pub fn table(&self) -> Result<TermTable, NoMemory>
        ensures { IfOk result (λ table. table ≡ table_of (state_of self.now.log)) }
    {
        self.log.table(self.alloc)
    }

    /// A copy of the entry at an offset, or None where the snapshot holds it or the log ends before it.
    pub fn entry(&self, offset: u64) -> Result<Option<Entry>, NoMemory>
        ensures { IfOk result (λ entry. entry ≡ entry_at (state_of self.now.log) offset) }
    {
        self.log.entry(offset)
    }

    /// How many blocks the entries leave.
    pub fn blocks_free(&self) -> u64
        ensures { result ≡ self.now.blocks - blocks_used (state_of self.now.log).entries }
    {
        self.blocks - self.log.used
    }

    /// The half that is the journal.
    pub fn half(&self) -> u8
        ensures { result ≡ self.now.journal.half }
    {
        self.journal.half
    }

    /// The two disks again, the first half's first. Nothing is written.
    pub fn close(self) -> (D, D)
        ensures zero { self.journal.half ≡ 0 → (result.0 ≡ self.journal.live) × (result.1 ≡ self.journal.spare) }
        ensures one { self.journal.half ≡ 1 → (result.0 ≡ self.journal.spare) × (result.1 ≡ self.journal.live) }
        ensures order { result ≡ in_order self.journal.half self.journal.live self.journal.spare }
    {
        let Wal { journal, .. } = self;
        journal.close()
    }
}
