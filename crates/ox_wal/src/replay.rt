// A log from the payloads of its journal.
ghost use Rattle.std.specs.Prelude.{◌≡◌, ◌⊎◌, ◌≤◌, ℕ, Bool, List, true, false, None, Some, Err, length, IfOk, IfErr, OnOk};
ghost use Rattle.std.specs.List.{list_all};
ghost use Rattle.ox_types.specs.declared.durable.Action.{Action as ActionIs};
ghost use Rattle.ox_types.specs.declared.durable.Action.TheVariants as action_is;
ghost use Rattle.ox_types.specs.Durable.{folded, is_lawful, fold_on};
ghost use Rattle.ox_types.specs.Limits.{count_limit};
ghost use Rattle.ox_wal.specs.ActionForms.{action as action_form};
ghost use Rattle.ox_wal.specs.Files.{actions_of, still_first};
ghost use Rattle.ox_wal.specs.State.{state_of};
ghost use Rattle.ox_wal.specs.declared.draft.DraftFault.TheVariants.{Unlawful};
ghost use Rattle.ox_wal.specs.declared.fault.WalFault.TheVariants.{Damaged, NoMemory};

use crate::action::decode_actions;
use crate::draft::DraftFault;
use crate::fault::WalFault;
use crate::log::Log;
use ox_bytes::{FieldFault, SAVED_LIMIT};
use ox_types::{Action, Head, Octets, Seat, Term};
use std::alloc::Global;

impl Log {
    /// Takes actions none of which is the first of its file.
    fn fold_behind(&mut self, alloc: Global, actions: &[Action]) -> Result<(), DraftFault>
        requires { list_all action_form.is_lawful actions.now ≡ true }
        ensures state { OnOk result (fold_on false (state_of self.old) actions.now ≡ Some (state_of self.new)) }
        ensures unlawful { result ≡ Err Unlawful → fold_on false (state_of self.old) actions.now ≡ None }
    {
        let _used = self.used;
        let draft = self.draft(alloc, actions, u64::MAX)?;
        self.entries.reserve(draft.staged.len())?;
        self.take_draft(draft);
        Ok(())
    }

    /// Takes a snapshot in place of all.
    fn restore(
        &mut self,
        alloc: Global,
        term: Term,
        seat: Seat,
        head: Head,
        saved: &Octets,
    ) -> Result<(), DraftFault>
        requires { head.count ≤ count_limit }
        ensures lawful { OnOk result (is_lawful true (state_of self.old) (action_is.Restore term seat head saved.now) ≡ true) }
        ensures state { OnOk result (state_of self.new ≡ folded (state_of self.old) (action_is.Restore term seat head saved.now)) }
        ensures unlawful { result ≡ Err Unlawful → is_lawful true (state_of self.old) (action_is.Restore term seat head saved.now) ≡ false }
    {
        if term.0 < head.term.0 || saved.len() as u64 > SAVED_LIMIT {
            return Err(DraftFault::Unlawful);
        }
        let saved = saved.try_clone()?;
        *self = Log {
            term,
            seat,
            base: head,
            saved: Some(saved),
            entries: Vec::new(alloc),
            used: 0,
        };
        Ok(())
    }

    /// Takes actions, maybe the first of their file.
    fn fold(&mut self, alloc: Global, first: bool, actions: &[Action]) -> Result<(), DraftFault>
        requires { list_all action_form.is_lawful actions.now ≡ true }
        ensures state { OnOk result (fold_on first (state_of self.old) actions.now ≡ Some (state_of self.new)) }
        ensures unlawful { result ≡ Err Unlawful → fold_on first (state_of self.old) actions.now ≡ None }
    {
        let [action, rest @ ..] = actions else {
            return Ok(());
        };
        match action {
            Action::Restore {
                term,
                seat,
                head,
                saved,
            } => {
                if !first {
                    return Err(DraftFault::Unlawful);
                }
                self.restore(alloc, *term, *seat, *head, saved)?;
                self.fold_behind(alloc, rest)
            }
            _ => self.fold_behind(alloc, actions),
        }
    }

    /// Takes the actions of a payload, whose gate is at this place; says whether there was no action so far.
    pub(crate) fn read_payload(
        &mut self,
        alloc: Global,
        first: bool,
        payload: &[u8],
        half: u8,
        at: u64,
    ) -> Result<bool, WalFault>
        ensures taken { IfOk result (λ still. (actions : List ActionIs) × (actions_of payload.now ≡ Some actions)
            × (fold_on first (state_of self.old) actions ≡ Some (state_of self.new)) × (still ≡ still_first first actions)) }
        ensures damaged { (actions : List ActionIs) → result ≡ Err (Damaged half at) → actions_of payload.now ≡ Some actions
            → fold_on first (state_of self.old) actions ≡ None }
        ensures only { IfErr result (λ e. (e ≡ NoMemory) ⊎ (e ≡ Damaged half at)) }
    {
        let actions = match decode_actions(alloc, payload) {
            Ok(actions) => actions,
            Err(FieldFault::Bad(_)) => return Err(WalFault::Damaged { half, at }),
            Err(FieldFault::NoMemory) => return Err(WalFault::NoMemory),
        };
        match self.fold(alloc, first, actions.as_slice()) {
            Ok(()) => Ok(first && actions.is_empty()),
            Err(DraftFault::Unlawful) => Err(WalFault::Damaged { half, at }),
            Err(_) => Err(WalFault::NoMemory),
        }
    }
}
