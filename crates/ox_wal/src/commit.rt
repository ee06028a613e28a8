// A batch of actions, kept whole or not at all.
ghost use Rattle.std.specs.Prelude.{◌≡◌, ◌≢◌, ◌⊎◌, ◌≤◌, ◌+◌, ◌∷◌, [], ℕ, true, false, None, Some, Err, length, vec_capacity, IsSome, IsTrue, IfOk, IfErr, OnOk, OnErr};
ghost use Rattle.ox_types.specs.Durable.{DurableState, fold_on};
ghost use Rattle.ox_outside.specs.Causes.{Rose};
ghost use Rattle.ox_outside.specs.Disk.{CallsLater};
ghost use Rattle.ox_wal.specs.ActionForms.{actions as actions_form};
ghost use Rattle.ox_journal.specs.Chain.{LeavesInTurn, in_order};
ghost use Rattle.ox_journal.specs.Pair.{LeavesPairs};
ghost use Rattle.ox_journal.specs.declared.state.State.TheVariants.{Broken};
ghost use Rattle.ox_wal.specs.Blocks.{first_full};
ghost use Rattle.ox_wal.specs.Files.{BeforeOrBehind, Keeps, StandAmong, StandsAs};
ghost use Rattle.ox_wal.specs.State.{state_of, drafted, IsDraft};
ghost use Rattle.ox_wal.specs.declared.fault.CommitFault.TheVariants.{LogFull, DiskFault, NoMemory};

use crate::action::encode_actions;
use crate::draft::{Draft, DraftFault};
use crate::fault::CommitFault;
use crate::wal::Wal;
use ox_journal::State;
use ox_outside::Disk;
use ox_types::{Action, Octets};

impl<D: Disk> Wal<D> {
    /// The draft of a lawful batch.
    fn plan(&self, actions: &[Action]) -> Result<Draft, CommitFault>
        requires spelled { IsTrue (actions_form.is_lawful actions.now) }
        requires lawful { IsSome (fold_on false (state_of self.now.log) actions.now) }
        ensures is { IfOk result (IsDraft self.now.log) }
        ensures state { IfOk result (λ draft. fold_on false (state_of self.now.log) actions.now ≡ Some (drafted self.now.log draft)) }
        ensures fits { OnOk result (first_full self.now.blocks (state_of self.now.log) actions.now ≡ None) }
        ensures within { IfOk result (λ draft. draft.used ≤ self.now.blocks) }
        ensures full { (need free : ℕ) → result ≡ Err (LogFull need free)
            → first_full self.now.blocks (state_of self.now.log) actions.now ≡ Some (need, free) }
        ensures only { IfErr result (λ e. e ≢ DiskFault) }
    {
        match self.log.draft(self.alloc, actions, self.blocks) {
            Ok(draft) => Ok(draft),
            Err(DraftFault::Full { need, free }) => Err(CommitFault::LogFull { need, free }),
            Err(DraftFault::NoMemory) => Err(CommitFault::NoMemory),
            Err(DraftFault::Unlawful) => unreachable!(),
        }
    }

    /// All that a lawful batch needs memory for: its draft, room for it in the log, and its bytes.
    fn stage(&mut self, actions: &[Action]) -> Result<(Draft, Octets), CommitFault>
        requires spelled { IsTrue (actions_form.is_lawful actions.now) }
        requires lawful { IsSome (fold_on false (state_of self.old.log) actions.now) }
        ensures is { IfOk result (λ made. IsDraft self.new.log made.0) }
        ensures room { IfOk result (λ made. length self.new.log.entries.items + length made.0.staged.items ≤ vec_capacity self.new.log.entries) }
        ensures within { IfOk result (λ made. made.0.used ≤ self.new.blocks) }
        ensures state { IfOk result (λ made. fold_on false (state_of self.old.log) actions.now ≡ Some (drafted self.new.log made.0)) }
        ensures text { IfOk result (λ made. made.1 ≡ actions_form.text actions.now) }
        ensures fits { OnOk result (first_full self.old.blocks (state_of self.old.log) actions.now ≡ None) }
        ensures full { (need free : ℕ) → result ≡ Err (LogFull need free)
            → first_full self.old.blocks (state_of self.old.log) actions.now ≡ Some (need, free) }
        ensures only { IfErr result (λ e. e ≢ DiskFault) }
        ensures same { (self.new.journal ≡ self.old.journal) × (self.new.blocks ≡ self.old.blocks) × (state_of self.new.log ≡ state_of self.old.log) }
    {
        let draft = self.plan(actions)?;
        self.log.entries.reserve(draft.staged.len())?;
        let text = encode_actions(self.alloc, actions)?;
        Ok((draft, text))
    }

    /// Keeps a batch of actions by one record of the journal. At `Ok` it is acknowledged: from then on each crash leaves
    /// a pair that stands for the state behind it. It costs a copy of its entries and the writes of its bytes; a batch
    /// without actions is kept without a call.
    pub fn commit(&mut self, actions: &[Action]) -> Result<(), CommitFault>
        requires spelled { IsTrue (actions_form.is_lawful actions.now) }
        requires size { length (actions_form.text actions.now) ≤ 4194304 }
        requires lawful { IsSome (fold_on false (state_of self.old.log) actions.now) }
        requires told { D.tells → self.old.journal.state ≢ Broken
            → Keeps (D.shows self.old.journal.live) (D.shows self.old.journal.spare) self.old.journal.round self.old.journal.end (state_of self.old.log) }

        ensures state { OnOk result (fold_on false (state_of self.old.log) actions.now ≡ Some (state_of self.new.log)) }
        ensures state_err { OnErr result (state_of self.new.log ≡ state_of self.old.log) }
        ensures kept { D.tells → self.old.journal.state ≢ Broken
            → OnOk result (Keeps (D.shows self.new.journal.live) (D.shows self.new.journal.spare) self.new.journal.round self.new.journal.end (state_of self.new.log)) }
        ensures any_moment { (behind : DurableState) → D.tells → self.old.journal.state ≢ Broken
            → fold_on false (state_of self.old.log) actions.now ≡ Some behind
            → LeavesPairs (D.shows self.old.journal.live) (D.shows self.old.journal.spare) (D.shows self.new.journal.live) (D.shows self.new.journal.spare)
            (BeforeOrBehind (state_of self.old.log) behind) }
        ensures in_turn { (behind : DurableState) → D.tells → self.old.journal.state ≢ Broken
            → fold_on false (state_of self.old.log) actions.now ≡ Some behind
            → LeavesInTurn D.shows StandsAs ((state_of self.old.log ∷ behind ∷ []) ∷ [])
            (in_order self.old.journal.half self.old.journal.live self.old.journal.spare)
            (in_order self.new.journal.half self.new.journal.live self.new.journal.spare) }
        ensures among { (behind : DurableState) → D.tells → self.old.journal.state ≢ Broken
            → fold_on false (state_of self.old.log) actions.now ≡ Some behind
            → StandAmong (D.shows (in_order self.new.journal.half self.new.journal.live self.new.journal.spare).0)
            (D.shows (in_order self.new.journal.half self.new.journal.live self.new.journal.spare).1) (state_of self.old.log ∷ behind ∷ []) }
        ensures calls { D.tells → actions.now ≢ [] → OnOk result (CallsLater 4 (D.shows self.old.journal.live) (D.shows self.new.journal.live)) }
        ensures no_calls { actions.now ≡ [] → self.new.journal ≡ self.old.journal }
        ensures fits { OnOk result (first_full self.old.blocks (state_of self.old.log) actions.now ≡ None) }
        ensures full { (need free : ℕ) → result ≡ Err (LogFull need free)
            → first_full self.old.blocks (state_of self.old.log) actions.now ≡ Some (need, free) }
        ensures full_first { result ≡ Err DiskFault → (self.old.journal.state ≡ Broken) ⊎ (first_full self.old.blocks (state_of self.old.log) actions.now ≡ None) }
        ensures untouched { IfErr result (λ e. e ≢ DiskFault → self.new.journal ≡ self.old.journal) }
        ensures open_ok { OnOk result ((self.old.journal.state ≢ Broken) × (self.new.journal.state ≡ self.old.journal.state)) }
        ensures failed { result ≡ Err DiskFault → self.new.journal.state ≡ Broken }
        ensures broken { self.old.journal.state ≡ Broken → (result ≡ Err DiskFault) × (self.new.journal ≡ self.old.journal) }
        ensures same { (self.new.blocks ≡ self.old.blocks) × (self.new.journal.half ≡ self.old.journal.half) × (self.new.journal.spare ≡ self.old.journal.spare) }
        ensures cause { result ≡ Err DiskFault → (self.old.journal.state ≡ Broken) ⊎ Rose (D.faults self.old.journal.live) (D.faults self.new.journal.live) }
        ensures later { D.faults self.old.journal.live ≤ D.faults self.new.journal.live }
    {
        if let State::Broken = self.journal.state {
            return Err(CommitFault::DiskFault);
        }
        if actions.is_empty() {
            return Ok(());
        }
        let (draft, text) = self.stage(actions)?;
        match self.journal.append(text.as_slice()) {
            Ok(()) => {
                self.log.take_draft(draft);
                Ok(())
            }
            Err(_) => Err(CommitFault::DiskFault),
        }
    }
}
