// A replica on its disks.
ghost use Rattle.std.specs.Prelude.{List, ◌≡◌, ◌⊎◌, ◌≤◌, ◌<◌, ℕ, true, false, None, Some, Ok, Err, IfOk, IfErr, OnOk, is_some};
ghost use Rattle.ox_types.specs.Durable.{DurableState, head_of};
ghost use Rattle.ox_outside.specs.Causes.{Rose};
ghost use Rattle.ox_outside.specs.Disk.{MayLeave};
ghost use Rattle.ox_journal.specs.Pair.{LeavesPairs};
ghost use Rattle.ox_wal.specs.Blocks.{blocks_used};
ghost use Rattle.ox_wal.specs.Files.{HoldsState, IsDamaged, StandFor, Stands};
ghost use Rattle.ox_wal.specs.declared.fault.WalFault.TheVariants as wal_is;
ghost use Rattle.ox_wal.specs.Follow.{entry_at};
ghost use Rattle.ox_solo_replica.specs.declared.output.HandleFault.{HandleFault as Faults};
ghost use Rattle.ox_solo_replica.specs.declared.output.HandleFault.TheVariants as fault_is;
ghost use Rattle.ox_solo_replica.specs.declared.output.Cut.TheVariants as cut_is;
ghost use Rattle.ox_solo_replica.specs.declared.output.Output.{Output as Outputs};
ghost use Rattle.ox_solo_replica.specs.Cutting.{cut_step, disk_behind};
ghost use Rattle.ox_solo_replica.specs.Due.{due_at};
ghost use Rattle.ox_solo_replica.specs.Recovered.{is_usable, recovered};
ghost use Rattle.ox_solo_replica.specs.Inputs.{IsInput};
ghost use Rattle.ox_solo_replica.specs.Sound.{IsKept, LeavesEither};
ghost use Rattle.ox_solo_replica.specs.State.{replica_of, view_of};
ghost use Rattle.ox_solo_replica.specs.Step.{output_of, replica_step};

use crate::input::Input;
use crate::live::Live;
use crate::output::{Cut, HandleFault, Output};
use crate::recover::recover_at;
use crate::step::{cut_at, handle_at, view_at};
use ox_bytes::TIME_LIMIT;
use ox_machine::Machine;
use ox_outside::Disk;
use ox_types::{Entry, Head, LogView, NoMemory, NodeId};
use ox_wal::{Wal, WalFault};
use std::alloc::Global;
use std::marker::Model;

/// A replica of a shard: its log on two disks, and the machine that it applies the log to.
#[derive(Drop)]
pub struct Replica<M: Machine, D: Disk> {
    alloc: Global,
    me: NodeId,
    wal: Wal<D>,
    live: Live<M>,
    fault: Option<HandleFault>,
}

impl<M: Machine, D: Disk> Model for Replica<M, D> {
    ghost use Rattle.ox_solo_replica.specs.State.{Held};

    ghost Value = { Held M D };

    ghost use Rattle.ox_wal.specs.State.{state_of};
    ghost use Rattle.ox_solo_replica.specs.Sound.{IsHeld};

    ghost view = { λ r. record { me = r.me; journal = r.wal.journal.live; spare = r.wal.journal.spare; half = r.wal.journal.half; round = r.wal.journal.round; end = r.wal.journal.end; writing = r.wal.journal.state; blocks = r.wal.blocks; disk = state_of r.wal.log; live = r.live; fault = r.fault } };

    ghost invariant = { λ r. IsHeld M.meaning D.tells D.shows (record { me = r.me; journal = r.wal.journal.live; spare = r.wal.journal.spare; half = r.wal.journal.half; round = r.wal.journal.round; end = r.wal.journal.end; writing = r.wal.journal.state; blocks = r.wal.blocks; disk = state_of r.wal.log; live = r.live; fault = r.fault }) };
}

impl<M: Machine, D: Disk> Replica<M, D> {
    /// The head of the log.
    pub fn head(&self) -> Head
        ensures { result ≡ head_of self.now.disk }
    {
        self.wal.head()
    }

    /// What a step of a replica that doesn't lead looks at.
    pub fn view(&self) -> LogView
        ensures { result ≡ view_of self.now.blocks (replica_of self.now) }
    {
        view_at(&self.wal, self.live.commit)
    }

    /// A copy of the entry at an offset, where the log has it.
    pub fn entry(&self, offset: u64) -> Result<Option<Entry>, NoMemory>
        ensures { IfOk result (λ entry. entry ≡ entry_at self.now.disk offset) }
    {
        self.wal.entry(offset)
    }

    /// Whether it leads its term.
    pub fn leads(&self) -> bool
        ensures { result ≡ is_some self.now.live.leading }
    {
        self.live.leading.is_some()
    }

    /// The id of the timer that has run out where the clock comes to this time (ms), if one has. It goes once through the timers.
    pub fn due(&self, ms: u64) -> Option<u64>
        ensures { result ≡ due_at self.now.live ms }
    {
        match &self.live.leading {
            None => None,
            Some(leading) => leading.timers.due(self.live.now.max(ms.min(TIME_LIMIT))),
        }
    }

    /// The two disks again, the first half's first. Nothing is written.
    pub fn close(self) -> (D, D)
        ensures zero { self.half ≡ 0 → (result.0 ≡ self.journal) × (result.1 ≡ self.spare) }
        ensures one { self.half ≡ 1 → (result.0 ≡ self.spare) × (result.1 ≡ self.journal) }
        ensures either { ((result.0 ≡ self.journal) × (result.1 ≡ self.spare)) ⊎ ((result.0 ≡ self.spare) × (result.1 ≡ self.journal)) }
    {
        let Replica { wal, .. } = self;
        wal.close()
    }

    /// Where the disks of a replica stand for its durable state (`IsKept`, which an answer of `handle` says), so does what a
    /// read of them gives and what a crash leaves of them.
    pub fn law_kept(&self)
        ensures seen { D.tells → IsKept D.shows self.now → HoldsState ((D.shows self.now.journal).seen) ((D.shows self.now.spare).seen) self.now.disk }
        ensures left { (c d : List ℕ) → D.tells → IsKept D.shows self.now → MayLeave (D.shows self.now.journal) c → MayLeave (D.shows self.now.spare) d → HoldsState c d self.now.disk }
    {
        self.wal.law_kept();
    }

    /// A replica of the node `me` on two disks, with so many blocks of 4,096 bytes for its entries. A pair without a journal
    /// becomes an empty log. Nothing is committed at first, and it doesn't lead. Where the log can't be used, the disks come
    /// back. It costs the bytes of the journal, a copy of its entries, and a decoding of the commands.
    pub fn recover(
        alloc: Global,
        me: NodeId,
        first: D,
        second: D,
        blocks: u32,
    ) -> Result<Replica<M, D>, (WalFault, D, D)>
        ensures opened { IfOk result (λ r. (r.me ≡ me) × (r.blocks ≡ blocks) × (r.fault ≡ None) × (r.live ≡ recovered M.meaning r.disk)) }
        ensures usable { IfOk result (λ r. is_usable M.meaning r.disk ≡ true) }
        ensures kept { D.tells → IfOk result (λ r. IsKept D.shows r) }
        ensures stood { D.tells → IfOk result (λ r. Stands ((D.shows first).seen) ((D.shows second).seen) r.disk) }
        ensures found { (state : DurableState) → D.tells → Stands ((D.shows first).seen) ((D.shows second).seen) state → IfOk result (λ r. r.disk ≡ state) }
        ensures found_err { (state : DurableState) → D.tells → Stands ((D.shows first).seen) ((D.shows second).seen) state → is_usable M.meaning state ≡ true
            → IfErr result (λ e. (e.0 ≡ wal_is.DiskFault) ⊎ (e.0 ≡ wal_is.NoMemory) ⊎ ((e.0 ≡ wal_is.TooFewBlocks (blocks_used state.entries) blocks) × (blocks < blocks_used state.entries))) }
        ensures damaged { D.tells → IfErr result (λ e. (half at : ℕ) → e.0 ≡ wal_is.Damaged half at
            → IsDamaged ((D.shows first).seen) ((D.shows second).seen) half at
            ⊎ ((state : DurableState) × Stands ((D.shows first).seen) ((D.shows second).seen) state × (is_usable M.meaning state ≡ false) × (at ≡ 10))) }
        ensures few_told { D.tells → IfErr result (λ e. (need have : ℕ) → e.0 ≡ wal_is.TooFewBlocks need have
            → (state : DurableState) × Stands ((D.shows first).seen) ((D.shows second).seen) state × (need ≡ blocks_used state.entries)) }
        ensures few { IfErr result (λ e. (need have : ℕ) → e.0 ≡ wal_is.TooFewBlocks need have → (have ≡ blocks) × (have < need)) }
        // A crash at any moment of it leaves disks that stand for the same state.
        ensures any_moment_zero { (state : DurableState) → D.tells → StandFor (D.shows first) (D.shows second) state
            → IfOk result (λ r. r.half ≡ 0 → LeavesPairs (D.shows first) (D.shows second) (D.shows r.journal) (D.shows r.spare) (λ c d. Stands c d state)) }
        ensures any_moment_one { (state : DurableState) → D.tells → StandFor (D.shows first) (D.shows second) state
            → IfOk result (λ r. r.half ≡ 1 → LeavesPairs (D.shows first) (D.shows second) (D.shows r.spare) (D.shows r.journal) (λ c d. Stands c d state)) }
        ensures any_moment_err { (state : DurableState) → D.tells → StandFor (D.shows first) (D.shows second) state
            → IfErr result (λ e. LeavesPairs (D.shows first) (D.shows second) (D.shows e.1) (D.shows e.2) (λ c d. Stands c d state)) }
        ensures cause { IfErr result (λ e. e.0 ≡ wal_is.DiskFault → Rose (D.faults first) (D.faults e.1) ⊎ Rose (D.faults second) (D.faults e.2)) }
        ensures later_zero { IfOk result (λ r. r.half ≡ 0 → (D.faults first ≤ D.faults r.journal) × (D.faults second ≤ D.faults r.spare)) }
        ensures later_one { IfOk result (λ r. r.half ≡ 1 → (D.faults second ≤ D.faults r.journal) × (D.faults first ≤ D.faults r.spare)) }
        ensures later_err { IfErr result (λ e. (D.faults first ≤ D.faults e.1) × (D.faults second ≤ D.faults e.2)) }
    {
        let (wal, live) = recover_at::<M, D>(alloc, first, second, blocks)?;
        Ok(Replica {
            alloc,
            me,
            wal,
            live,
            fault: None,
        })
    }

    /// One step (docs/REPLICATION.md, "Steps of a replica").
    pub fn handle(&mut self, input: Input) -> Result<Output, HandleFault>
        requires { IsInput input }
        ensures output { IfOk result (λ output. output ≡ output_of (replica_step M.meaning self.old.me self.old.blocks (replica_of self.old) input)) }
        ensures state { OnOk result (replica_of self.new ≡ (replica_step M.meaning self.old.me self.old.blocks (replica_of self.old) input).state) }
        ensures same { (self.new.me ≡ self.old.me) × (self.new.blocks ≡ self.old.blocks) × (self.new.half ≡ self.old.half) × (self.new.spare ≡ self.old.spare) }
        // From an answer on, every crash leaves the state behind the step.
        ensures kept { D.tells → OnOk result (IsKept D.shows self.new) }
        ensures any_moment { D.tells → self.old.fault ≡ None → LeavesEither D.shows self.old self.new self.old.disk (replica_step M.meaning self.old.me self.old.blocks (replica_of self.old) input).state.disk }
        ensures up { OnOk result ((self.old.fault ≡ None) × (self.new.fault ≡ None)) }
        ensures down { IfErr result (λ e. self.new.fault ≡ Some e) }
        ensures closed { (e : Faults) → self.old.fault ≡ Some e → (result ≡ Err e) × (self.new ≡ self.old) }
        ensures cause { result ≡ Err fault_is.DiskFault → (self.old.fault ≡ Some fault_is.DiskFault) ⊎ Rose (D.faults self.old.journal) (D.faults self.new.journal) }
        ensures later { D.faults self.old.journal ≤ D.faults self.new.journal }
    {
        if let Some(fault) = self.fault {
            return Err(fault);
        }
        match handle_at(self.alloc, self.me, &mut self.wal, &mut self.live, input) {
            Ok(output) => Ok(output),
            Err(fault) => {
                self.fault = Some(fault);
                Err(fault)
            }
        }
    }

    /// One step, cut inside the call of the disks with this number, counted from 1: a batch makes four. `stands` where what
    /// that call wrote is found again. Where the step makes fewer calls it is whole, as `handle` does it. Else the replica is
    /// down: its disks stand for the state before the step or behind it, and it is closed.
    pub fn handle_cut(&mut self, input: Input, at: u64, stands: bool) -> Result<Cut, HandleFault>
        requires input { IsInput input }
        requires counted { 0 < at }
        ensures cut { IfOk result (λ cut. cut ≡ cut_step self.old.disk (replica_step M.meaning self.old.me self.old.blocks (replica_of self.old) input) at stands) }
        ensures disk { OnOk result (self.new.disk ≡ disk_behind self.old.disk (replica_step M.meaning self.old.me self.old.blocks (replica_of self.old) input) at stands) }
        // Where it is whole it goes on.
        ensures state { (output : Outputs) → result ≡ Ok (cut_is.Whole output)
            → (replica_of self.new ≡ (replica_step M.meaning self.old.me self.old.blocks (replica_of self.old) input).state) × (self.new.fault ≡ None) }
        ensures same { (self.new.me ≡ self.old.me) × (self.new.blocks ≡ self.old.blocks) × (self.new.half ≡ self.old.half) × (self.new.spare ≡ self.old.spare) }
        ensures kept { D.tells → OnOk result (IsKept D.shows self.new) }
        ensures any_moment { D.tells → self.old.fault ≡ None → LeavesEither D.shows self.old self.new self.old.disk (replica_step M.meaning self.old.me self.old.blocks (replica_of self.old) input).state.disk }
        ensures up { OnOk result (self.old.fault ≡ None) }
        ensures down { IfErr result (λ e. self.new.fault ≡ Some e) }
        ensures closed { (e : Faults) → self.old.fault ≡ Some e → (result ≡ Err e) × (self.new ≡ self.old) }
        ensures cause { result ≡ Err fault_is.DiskFault → (self.old.fault ≡ Some fault_is.DiskFault) ⊎ Rose (D.faults self.old.journal) (D.faults self.new.journal) }
        ensures later { D.faults self.old.journal ≤ D.faults self.new.journal }
    {
        if let Some(fault) = self.fault {
            return Err(fault);
        }
        let done = cut_at(
            self.alloc,
            self.me,
            &mut self.wal,
            &mut self.live,
            input,
            at,
            stands,
        );
        match done {
            Ok(Cut::Whole(output)) => Ok(Cut::Whole(output)),
            Ok(Cut::Down { kept, head }) => {
                self.fault = Some(HandleFault::DiskFault);
                Ok(Cut::Down { kept, head })
            }
            Err(fault) => {
                self.fault = Some(fault);
                Err(fault)
            }
        }
    }
}
