// The log of a replica on a pair of disks.
ghost use Rattle.std.specs.Prelude.{◌≡◌, ◌≢◌, ◌≤◌, ◌++◌, ℕ, List};
ghost use Rattle.ox_types.specs.Durable.{DurableState};
ghost use Rattle.ox_outside.specs.Disk.{MayLeave};
ghost use Rattle.ox_journal.specs.Chain.{LeavesInTurn};
ghost use Rattle.ox_journal.specs.declared.state.State.TheVariants.{Reading};
ghost use Rattle.ox_wal.specs.Files.{Breaks, HoldsState, Keeps, StandsAs};

use crate::log::Log;
use ox_journal::Journal;
use ox_outside::Disk;
use std::alloc::Global;

/// The durable state of a replica, in memory and in a journal on two disks, with so many blocks for its entries. Where
/// the journal's state is `Broken` an earlier call answered `DiskFault`, and the log must be recovered again.
#[derive(Drop)]
pub struct Wal<D: Disk> {
    pub journal: Journal<D>,
    pub log: Log,
    pub blocks: u64,
    pub alloc: Global,
    ghost read: { journal.state ≢ Reading },
    ghost fits: { log.used ≤ blocks },
}

impl<D: Disk> Wal<D> {
    /// Two runs of calls, one behind the other, are one.
    pub fn law_joined()
        ensures { (steps more : List (List DurableState)) (first mid last : D × D)
            → LeavesInTurn D.shows StandsAs steps first mid → LeavesInTurn D.shows StandsAs more mid last
            → LeavesInTurn D.shows StandsAs (steps ++ more) first last }
    {}

    /// A file breaks at one place at most.
    pub fn law_one_place()
        ensures { (file : List ℕ) (round a b : ℕ) → Breaks file round a → Breaks file round b → a ≡ b }
    {}

    /// Two disks with a journal that keeps a state stand for it, now and whatever a crash leaves of them.
    pub fn law_kept(&self)
        ensures seen { (state : DurableState) → D.tells
            → Keeps (D.shows self.now.journal.live) (D.shows self.now.journal.spare) self.now.journal.round self.now.journal.end state
            → HoldsState ((D.shows self.now.journal.live).seen) ((D.shows self.now.journal.spare).seen) state }
        ensures left { (state : DurableState) (c d : List ℕ) → D.tells
            → Keeps (D.shows self.now.journal.live) (D.shows self.now.journal.spare) self.now.journal.round self.now.journal.end state
            → MayLeave (D.shows self.now.journal.live) c → MayLeave (D.shows self.now.journal.spare) d → HoldsState c d state }
    {}
}
