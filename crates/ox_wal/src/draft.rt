// What a batch of actions makes of a log, before the log takes it.
ghost use Rattle.std.specs.Prelude.{◌≡◌, ◌≤◌, ◌<◌, ◌+◌, ◌&&◌, ℕ, nat_le, true, false, None, Some, Err, length, take, IfOk, OnOk};
ghost use Rattle.ox_types.specs.declared.log.Seat.TheVariants.{Attached};
ghost use Rattle.std.specs.List.{list_all};
ghost use Rattle.ox_types.specs.declared.durable.Action.TheVariants as action_is;
ghost use Rattle.ox_types.specs.Durable.{count_of, head_of, folded, is_lawful, fold_on, may_follow};
ghost use Rattle.ox_types.specs.Limits.{count_limit};
ghost use Rattle.ox_bytes.specs.LogForms.{entry as entry_form};
ghost use Rattle.ox_wal.specs.ActionForms.{action as action_form};
ghost use Rattle.ox_wal.specs.Blocks.{full_at, first_full};
ghost use Rattle.ox_wal.specs.State.{state_of, drafted, drafted_entries, IsDraft};
ghost use Rattle.ox_wal.specs.declared.draft.DraftFault.TheVariants.{Unlawful, Full};

use crate::entries::{copy_entries, count_blocks, follow, last_of, number_of};
use crate::log::Log;
use ox_types::{Action, Entry, NoMemory, Seat, Term};
use std::alloc::{AllocError, Global};

/// The state behind some actions: of the log's entries so many are kept, and these are added.
#[derive(Drop)]
pub struct Draft {
    pub term: Term,
    pub seat: Seat,
    pub keep: usize,
    pub staged: Vec<Entry>,
    pub used: u64,
}

/// Why there is no draft.
#[derive(Clone, Copy, Debug, PartialEq, Eq)]
pub enum DraftFault {
    Unlawful,
    Full { need: u64, free: u64 },
    NoMemory,
}

impl From<NoMemory> for DraftFault {
    ghost use Rattle.std.specs.Prelude.{◌≡◌};
    ghost use Rattle.ox_wal.specs.declared.draft.DraftFault.TheVariants.{NoMemory as OutOfMemory};

    ghost from_gives = { λ e fault. fault ≡ OutOfMemory };

    fn from(_e: NoMemory) -> DraftFault {
        DraftFault::NoMemory
    }
}

impl From<AllocError> for DraftFault {
    ghost use Rattle.std.specs.Prelude.{◌≡◌};
    ghost use Rattle.ox_wal.specs.declared.draft.DraftFault.TheVariants.{NoMemory as OutOfMemory};

    ghost from_gives = { λ e fault. fault ≡ OutOfMemory };

    fn from(_e: AllocError) -> DraftFault {
        DraftFault::NoMemory
    }
}

impl Log {
    /// The draft that changes nothing.
    fn begin_draft(&self, alloc: Global) -> Draft
        ensures is { IsDraft self.now result }
        ensures same { drafted self.now result ≡ state_of self.now }
    {
        Draft {
            term: self.term,
            seat: self.seat,
            keep: self.entries.len(),
            staged: Vec::new(alloc),
            used: self.used,
        }
    }

    /// The number of entries behind the draft, those of the snapshot too.
    fn drafted_count(&self, draft: &Draft) -> u64
        requires { IsDraft self.now draft.now }
        ensures count { result ≡ count_of (drafted self.now draft.now) }
        ensures small { result ≤ count_limit }
    {
        self.base.count + draft.keep as u64 + draft.staged.len() as u64
    }

    /// The term of the last entry behind the draft, or that of the snapshot.
    fn drafted_term(&self, draft: &Draft) -> u64
        requires { IsDraft self.now draft.now }
        ensures { result ≡ (head_of (drafted self.now draft.now)).term }
    {
        let kept = last_of(number_of(self.base.term), &self.entries[..draft.keep]);
        last_of(kept, &draft.staged)
    }

    /// Whether the drafted log may be cut to so many entries.
    fn holds(&self, draft: &Draft, count: u64) -> bool
        requires { IsDraft self.now draft.now }
        ensures { result ≡ (nat_le self.now.base.count count && nat_le count (count_of (drafted self.now draft.now))) }
    {
        self.base.count <= count && count <= self.drafted_count(draft)
    }

    /// Begins a term, fenced.
    fn draft_term(&self, draft: &mut Draft, term: Term)
        requires is { IsDraft self.now draft.old }
        requires higher { draft.old.term < term }
        ensures is { IsDraft self.now draft.new }
        ensures state { drafted self.now draft.new ≡ folded (drafted self.now draft.old) (action_is.Term term) }
        ensures same { draft.new.used ≡ draft.old.used }
    {
        draft.term = term;
        draft.seat = Seat::Fenced;
    }

    /// Cuts the drafted log to so many of the entries that it keeps, and attaches.
    fn draft_cut_kept(&self, draft: &mut Draft, left: usize) -> Result<(), NoMemory>
        requires is { IsDraft self.now draft.old }
        requires within { left ≤ draft.old.keep }
        ensures is { OnOk result (IsDraft self.now draft.new) }
        ensures less { OnOk result (draft.new.used ≤ draft.old.used) }
        ensures state { OnOk result (drafted self.now draft.new ≡ record (drafted self.now draft.old) { seat = Attached; entries = take left (drafted_entries self.now draft.old) }) }
    {
        let gone = count_blocks(&self.entries[left..draft.keep])?;
        let staged = count_blocks(&draft.staged)?;
        draft.used = draft.used - staged - gone;
        draft.keep = left;
        draft.staged.clear();
        draft.seat = Seat::Attached;
        Ok(())
    }

    /// Cuts the drafted log to those that it keeps and so many of those that it adds, and attaches.
    fn draft_cut_staged(&self, draft: &mut Draft, left: usize) -> Result<(), NoMemory>
        requires is { IsDraft self.now draft.old }
        requires within { left ≤ length draft.old.staged.items }
        ensures is { OnOk result (IsDraft self.now draft.new) }
        ensures less { OnOk result (draft.new.used ≤ draft.old.used) }
        ensures state { OnOk result (drafted self.now draft.new ≡ record (drafted self.now draft.old) { seat = Attached; entries = take (draft.old.keep + left) (drafted_entries self.now draft.old) }) }
    {
        let gone = count_blocks(&draft.staged[left..])?;
        draft.used -= gone;
        draft.staged.truncate(left);
        draft.seat = Seat::Attached;
        Ok(())
    }

    /// Cuts the drafted log to so many entries, and attaches.
    fn draft_cut(&self, draft: &mut Draft, count: u64) -> Result<(), NoMemory>
        requires is { IsDraft self.now draft.old }
        requires base { self.now.base.count ≤ count }
        requires within { count ≤ count_of (drafted self.now draft.old) }
        ensures is { OnOk result (IsDraft self.now draft.new) }
        ensures less { OnOk result (draft.new.used ≤ draft.old.used) }
        ensures state { OnOk result (drafted self.now draft.new ≡ folded (drafted self.now draft.old) (action_is.Attach count)) }
    {
        let left = (count - self.base.count) as usize;
        if left <= draft.keep {
            self.draft_cut_kept(draft, left)
        } else {
            self.draft_cut_staged(draft, left - draft.keep)
        }
    }

    /// Adds copies of the entries to the draft, where there are as many blocks.
    fn draft_append(&self, draft: &mut Draft, entries: &[Entry], all: u64) -> Result<(), DraftFault>
        requires is { IsDraft self.now draft.old }
        requires spelled { list_all entry_form.is_lawful entries.now ≡ true }
        requires within { draft.old.used ≤ all }
        ensures lawful { OnOk result (is_lawful false (drafted self.now draft.old) (action_is.Append entries.now) ≡ true) }
        ensures fits { OnOk result (full_at all (drafted self.now draft.old) (action_is.Append entries.now) ≡ None) }
        ensures is { OnOk result (IsDraft self.now draft.new) }
        ensures state { OnOk result (drafted self.now draft.new ≡ folded (drafted self.now draft.old) (action_is.Append entries.now)) }
        ensures within { OnOk result (draft.new.used ≤ all) }
        ensures unlawful { result ≡ Err Unlawful → is_lawful false (drafted self.now draft.old) (action_is.Append entries.now) ≡ false }
        ensures full { (need free : ℕ) → result ≡ Err (Full need free) → full_at all (drafted self.now draft.old) (action_is.Append entries.now) ≡ Some (need, free) }
    {
        let count = self.drafted_count(draft);
        let last = self.drafted_term(draft);
        if !follow(number_of(draft.term), last, count, entries) {
            return Err(DraftFault::Unlawful);
        }
        let need = count_blocks(entries)?;
        let free = all - draft.used;
        if need > free {
            return Err(DraftFault::Full { need, free });
        }
        copy_entries(entries, &mut draft.staged)?;
        draft.used += need;
        Ok(())
    }

    /// Takes one action more into the draft.
    fn draft_step(&self, draft: &mut Draft, action: &Action, all: u64) -> Result<(), DraftFault>
        requires is { IsDraft self.now draft.old }
        requires spelled { action_form.is_lawful action.now ≡ true }
        requires within { draft.old.used ≤ all }
        ensures lawful { OnOk result (is_lawful false (drafted self.now draft.old) action.now ≡ true) }
        ensures fits { OnOk result (full_at all (drafted self.now draft.old) action.now ≡ None) }
        ensures is { OnOk result (IsDraft self.now draft.new) }
        ensures state { OnOk result (drafted self.now draft.new ≡ folded (drafted self.now draft.old) action.now) }
        ensures within { OnOk result (draft.new.used ≤ all) }
        ensures unlawful { result ≡ Err Unlawful → is_lawful false (drafted self.now draft.old) action.now ≡ false }
        ensures full { (need free : ℕ) → result ≡ Err (Full need free)
            → full_at all (drafted self.now draft.old) action.now ≡ Some (need, free) }
    {
        match action {
            Action::Term(term) => {
                if number_of(*term) <= number_of(draft.term) {
                    return Err(DraftFault::Unlawful);
                }
                self.draft_term(draft, *term);
                Ok(())
            }
            Action::Attach { count } => {
                if draft.seat != Seat::Fenced || !self.holds(draft, *count) {
                    return Err(DraftFault::Unlawful);
                }
                self.draft_cut(draft, *count)?;
                Ok(())
            }
            Action::Lead => {
                if draft.seat != Seat::Fenced {
                    return Err(DraftFault::Unlawful);
                }
                draft.seat = Seat::Led;
                Ok(())
            }
            Action::Append { entries } => self.draft_append(draft, entries.as_slice(), all),
            Action::Restore { .. } => Err(DraftFault::Unlawful),
        }
    }

    /// The draft of some actions, of so many blocks in all: it needs copies of the entries that it adds.
    pub(crate) fn draft(
        &self,
        alloc: Global,
        actions: &[Action],
        all: u64,
    ) -> Result<Draft, DraftFault>
        requires spelled { list_all action_form.is_lawful actions.now ≡ true }
        requires within { self.now.used ≤ all }
        ensures is { IfOk result (IsDraft self.now) }
        ensures state { IfOk result (λ draft. fold_on false (state_of self.now) actions.now ≡ Some (drafted self.now draft)) }
        ensures fits { OnOk result (first_full all (state_of self.now) actions.now ≡ None) }
        ensures within { IfOk result (λ draft. draft.used ≤ all) }
        ensures unlawful { result ≡ Err Unlawful → fold_on false (state_of self.now) actions.now ≡ None }
        ensures full { (need free : ℕ) → result ≡ Err (Full need free)
            → first_full all (state_of self.now) actions.now ≡ Some (need, free) }
    {
        let mut draft = self.begin_draft(alloc);
        for action in actions {
            self.draft_step(&mut draft, action, all)?;
        }
        Ok(draft)
    }
}
