// The rewrite of a journal into its other half.
ghost use Rattle.std.specs.Prelude.{◌≡◌, ◌≢◌, ◌⊎◌, ◌<◌, ◌≤◌, ◌+◌, ◌/◌, ◌%◌, ◌^◌, [], ◌∷◌, ◌++◌, ℕ, List, Some, length, OnOk, OnErr};
ghost use Rattle.ox_outside.specs.Causes.{Rose};
ghost use Rattle.ox_outside.specs.Disk.{CallsLater};
ghost use Rattle.ox_journal.specs.Calls.{Calls, closing_calls};
ghost use Rattle.ox_journal.specs.Chain.{FilesHold, LeavesInTurn, in_order};
ghost use Rattle.ox_journal.specs.Filling.{IsRewriting, OldOrNew, next_round};
ghost use Rattle.ox_journal.specs.Pair.{IsOpen, LeavesPairs, Holds};
ghost use Rattle.ox_journal.specs.declared.state.State.TheVariants.{Reading, Open, Broken, Filling};

use crate::filling::{fill_all, fill_once, switch_half};
use crate::journal::Journal;
use crate::making::close_gate;
use crate::state::State;
use ox_outside::{Disk, DiskFault};
use std::mem;

impl<D: Disk> Journal<D> {
    /// Begins a rewrite: closes the other half. What an earlier rewrite has filled is dropped.
    pub fn prepare(&mut self) -> Result<(), DiskFault>
        requires state { self.old.state ≢ Reading }

        ensures done { (payloads : List (List ℕ)) → D.tells → self.old.state ≢ Broken
            → IsOpen (D.shows self.old.live) (D.shows self.old.spare) self.old.round self.old.end payloads
            → OnOk result (IsOpen (D.shows self.new.live) (D.shows self.new.spare) self.new.round self.new.end payloads
            × IsRewriting (D.shows self.new.spare) self.new.round self.new.filled self.new.left self.new.buffer.items []) }
        ensures any_moment { (payloads : List (List ℕ)) → D.tells → self.old.state ≢ Broken
            → IsOpen (D.shows self.old.live) (D.shows self.old.spare) self.old.round self.old.end payloads
            → LeavesPairs (D.shows self.old.live) (D.shows self.old.spare) (D.shows self.new.live) (D.shows self.new.spare) (λ c d. Holds c d payloads) }
        ensures in_turn { (payloads : List (List ℕ)) → D.tells → self.old.state ≢ Broken
            → IsOpen (D.shows self.old.live) (D.shows self.old.spare) self.old.round self.old.end payloads
            → LeavesInTurn D.shows FilesHold ((Some payloads ∷ []) ∷ [])
            (in_order self.old.half self.old.live self.old.spare) (in_order self.new.half self.new.live self.new.spare) }
        ensures calls { D.tells → OnOk result (CallsLater (closing_calls ((D.shows self.old.spare).seen)) (D.shows self.old.spare) (D.shows self.new.spare)) }
        ensures live { self.new.live ≡ self.old.live }
        ensures same { (self.new.half ≡ self.old.half) × (self.new.round ≡ self.old.round) × (self.new.end ≡ self.old.end) }
        ensures begun { OnOk result (self.new.left ≡ 0) }
        ensures pending { OnOk result (length self.new.buffer.items ≡ 9) }
        ensures state_ok { OnOk result ((self.old.state ≢ Broken) × (self.new.state ≡ Filling)) }
        ensures state_err { OnErr result (self.new.state ≡ Broken) }
        ensures broken { self.old.state ≡ Broken → self.new ≡ self.old }
        ensures cause { OnErr result ((self.old.state ≡ Broken) ⊎ Rose (D.faults self.old.spare) (D.faults self.new.spare)) }
        ensures later { D.faults self.old.spare ≤ D.faults self.new.spare }
    {
        if let State::Broken = self.state {
            return Err(DiskFault);
        }
        match close_gate(&mut self.spare) {
            Ok(()) => {
                self.buffer.clear();
                let round = (self.round + 1) % 3;
                let _ = self
                    .buffer
                    .extend_from_slice(&[79, 88, 73, 65, 74, 82, 78, 49, round]);
                self.filled = 0;
                self.left = 0;
                self.state = State::Filling;
                Ok(())
            }
            Err(_) => {
                self.state = State::Broken;
                Err(DiskFault)
            }
        }
    }

    /// Begins a record of the rewrite, of so many bytes, once those before have all of theirs.
    pub fn fill_start(&mut self, len: u32) -> Result<(), DiskFault>
        requires state { (self.old.state ≡ Filling) ⊎ (self.old.state ≡ Broken) }
        requires whole { self.old.state ≡ Filling → self.old.left ≡ 0 }
        requires told { D.tells → self.old.state ≡ Filling
            → (new : List (List ℕ)) × IsRewriting (D.shows self.old.spare) self.old.round self.old.filled self.old.left self.old.buffer.items new }

        ensures done { (new : List (List ℕ)) → D.tells → self.old.state ≡ Filling
            → IsRewriting (D.shows self.old.spare) self.old.round self.old.filled self.old.left self.old.buffer.items new
            → OnOk result (IsRewriting (D.shows self.new.spare) self.new.round self.new.filled self.new.left self.new.buffer.items (new ++ [] ∷ [])) }
        ensures keeps { (payloads new : List (List ℕ)) → D.tells → self.old.state ≡ Filling
            → IsOpen (D.shows self.old.live) (D.shows self.old.spare) self.old.round self.old.end payloads
            → IsRewriting (D.shows self.old.spare) self.old.round self.old.filled self.old.left self.old.buffer.items new
            → OnOk result (IsOpen (D.shows self.new.live) (D.shows self.new.spare) self.new.round self.new.end payloads) }
        ensures any_moment { (payloads new : List (List ℕ)) → D.tells → self.old.state ≡ Filling
            → IsOpen (D.shows self.old.live) (D.shows self.old.spare) self.old.round self.old.end payloads
            → IsRewriting (D.shows self.old.spare) self.old.round self.old.filled self.old.left self.old.buffer.items new
            → LeavesPairs (D.shows self.old.live) (D.shows self.old.spare) (D.shows self.new.live) (D.shows self.new.spare) (λ c d. Holds c d payloads) }
        ensures in_turn { (payloads new : List (List ℕ)) → D.tells → self.old.state ≡ Filling
            → IsOpen (D.shows self.old.live) (D.shows self.old.spare) self.old.round self.old.end payloads
            → IsRewriting (D.shows self.old.spare) self.old.round self.old.filled self.old.left self.old.buffer.items new
            → LeavesInTurn D.shows FilesHold ((Some payloads ∷ []) ∷ [])
            (in_order self.old.half self.old.live self.old.spare) (in_order self.new.half self.new.live self.new.spare) }
        ensures calls { D.tells → OnOk result (Calls ((length self.old.buffer.items + 5) / 1048576) (D.shows self.old.spare) (D.shows self.new.spare)) }
        ensures live { self.new.live ≡ self.old.live }
        ensures same { (self.new.half ≡ self.old.half) × (self.new.round ≡ self.old.round) × (self.new.end ≡ self.old.end) }
        ensures begun { OnOk result (self.new.left ≡ len) }
        ensures pending { OnOk result (length self.new.buffer.items ≡ (length self.old.buffer.items + 5) % 1048576) }
        ensures state_ok { OnOk result ((self.old.state ≡ Filling) × (self.new.state ≡ Filling)) }
        ensures state_err { OnErr result (self.new.state ≡ Broken) }
        ensures broken { self.old.state ≡ Broken → self.new ≡ self.old }
        ensures cause { OnErr result ((self.old.state ≡ Broken) ⊎ Rose (D.faults self.old.spare) (D.faults self.new.spare)) }
        ensures later { D.faults self.old.spare ≤ D.faults self.new.spare }
    {
        let State::Filling = self.state else {
            return Err(DiskFault);
        };
        let [a, b, c, d] = len.to_be_bytes();
        match fill_once(
            &mut self.spare,
            &mut self.filled,
            &mut self.buffer,
            &[1, a, b, c, d],
        ) {
            Ok(()) => {
                self.left = len as u64;
                Ok(())
            }
            Err(_) => {
                self.state = State::Broken;
                Err(DiskFault)
            }
        }
    }

    /// Adds bytes to the record that was begun, no more than it lacks.
    pub fn fill(&mut self, bytes: &[u8]) -> Result<(), DiskFault>
        requires state { (self.old.state ≡ Filling) ⊎ (self.old.state ≡ Broken) }
        requires lacks { self.old.state ≡ Filling → length bytes.now ≤ self.old.left }
        requires told { D.tells → self.old.state ≡ Filling
            → (new : List (List ℕ)) × IsRewriting (D.shows self.old.spare) self.old.round self.old.filled self.old.left self.old.buffer.items new }

        ensures done { (new : List (List ℕ)) (part : List ℕ) → D.tells → self.old.state ≡ Filling
            → IsRewriting (D.shows self.old.spare) self.old.round self.old.filled self.old.left self.old.buffer.items (new ++ part ∷ [])
            → OnOk result (IsRewriting (D.shows self.new.spare) self.new.round self.new.filled self.new.left self.new.buffer.items (new ++ (part ++ bytes.now) ∷ [])) }
        ensures keeps { (payloads new : List (List ℕ)) → D.tells → self.old.state ≡ Filling
            → IsOpen (D.shows self.old.live) (D.shows self.old.spare) self.old.round self.old.end payloads
            → IsRewriting (D.shows self.old.spare) self.old.round self.old.filled self.old.left self.old.buffer.items new
            → OnOk result (IsOpen (D.shows self.new.live) (D.shows self.new.spare) self.new.round self.new.end payloads) }
        ensures any_moment { (payloads new : List (List ℕ)) → D.tells → self.old.state ≡ Filling
            → IsOpen (D.shows self.old.live) (D.shows self.old.spare) self.old.round self.old.end payloads
            → IsRewriting (D.shows self.old.spare) self.old.round self.old.filled self.old.left self.old.buffer.items new
            → LeavesPairs (D.shows self.old.live) (D.shows self.old.spare) (D.shows self.new.live) (D.shows self.new.spare) (λ c d. Holds c d payloads) }
        ensures in_turn { (payloads new : List (List ℕ)) → D.tells → self.old.state ≡ Filling
            → IsOpen (D.shows self.old.live) (D.shows self.old.spare) self.old.round self.old.end payloads
            → IsRewriting (D.shows self.old.spare) self.old.round self.old.filled self.old.left self.old.buffer.items new
            → LeavesInTurn D.shows FilesHold ((Some payloads ∷ []) ∷ [])
            (in_order self.old.half self.old.live self.old.spare) (in_order self.new.half self.new.live self.new.spare) }
        ensures calls { D.tells → OnOk result (Calls ((length self.old.buffer.items + length bytes.now) / 1048576) (D.shows self.old.spare) (D.shows self.new.spare)) }
        ensures live { self.new.live ≡ self.old.live }
        ensures same { (self.new.half ≡ self.old.half) × (self.new.round ≡ self.old.round) × (self.new.end ≡ self.old.end) }
        ensures lacks { OnOk result (self.new.left + length bytes.now ≡ self.old.left) }
        ensures pending { OnOk result (length self.new.buffer.items ≡ (length self.old.buffer.items + length bytes.now) % 1048576) }
        ensures state_ok { OnOk result ((self.old.state ≡ Filling) × (self.new.state ≡ Filling)) }
        ensures state_err { OnErr result (self.new.state ≡ Broken) }
        ensures broken { self.old.state ≡ Broken → self.new ≡ self.old }
        ensures cause { OnErr result ((self.old.state ≡ Broken) ⊎ Rose (D.faults self.old.spare) (D.faults self.new.spare)) }
        ensures later { D.faults self.old.spare ≤ D.faults self.new.spare }
    {
        let State::Filling = self.state else {
            return Err(DiskFault);
        };
        match fill_all(&mut self.spare, &mut self.filled, &mut self.buffer, bytes) {
            Ok(()) => {
                self.left -= bytes.len() as u64;
                Ok(())
            }
            Err(_) => {
                self.state = State::Broken;
                Err(DiskFault)
            }
        }
    }

    /// Makes the other half the journal, once each record begun since `prepare` has all its bytes.
    pub fn switch(&mut self) -> Result<(), DiskFault>
        requires state { (self.old.state ≡ Filling) ⊎ (self.old.state ≡ Broken) }
        requires whole { self.old.state ≡ Filling → self.old.left ≡ 0 }
        requires told { D.tells → self.old.state ≡ Filling
            → (new : List (List ℕ)) × IsRewriting (D.shows self.old.spare) self.old.round self.old.filled self.old.left self.old.buffer.items new }

        ensures done { (payloads new : List (List ℕ)) → D.tells → self.old.state ≡ Filling
            → IsOpen (D.shows self.old.live) (D.shows self.old.spare) self.old.round self.old.end payloads
            → IsRewriting (D.shows self.old.spare) self.old.round self.old.filled self.old.left self.old.buffer.items new
            → OnOk result (IsOpen (D.shows self.new.live) (D.shows self.new.spare) self.new.round self.new.end new) }
        ensures any_moment { (payloads new : List (List ℕ)) → D.tells → self.old.state ≡ Filling
            → IsOpen (D.shows self.old.live) (D.shows self.old.spare) self.old.round self.old.end payloads
            → IsRewriting (D.shows self.old.spare) self.old.round self.old.filled self.old.left self.old.buffer.items new
            → OnOk result (LeavesPairs (D.shows self.old.live) (D.shows self.old.spare) (D.shows self.new.spare) (D.shows self.new.live) (OldOrNew payloads new)) }
        ensures any_moment_err { (payloads new : List (List ℕ)) → D.tells → self.old.state ≡ Filling
            → IsOpen (D.shows self.old.live) (D.shows self.old.spare) self.old.round self.old.end payloads
            → IsRewriting (D.shows self.old.spare) self.old.round self.old.filled self.old.left self.old.buffer.items new
            → OnErr result (LeavesPairs (D.shows self.old.live) (D.shows self.old.spare) (D.shows self.new.live) (D.shows self.new.spare) (OldOrNew payloads new)) }
        ensures in_turn { (payloads new : List (List ℕ)) → D.tells → self.old.state ≡ Filling
            → IsOpen (D.shows self.old.live) (D.shows self.old.spare) self.old.round self.old.end payloads
            → IsRewriting (D.shows self.old.spare) self.old.round self.old.filled self.old.left self.old.buffer.items new
            → LeavesInTurn D.shows FilesHold ((Some payloads ∷ Some new ∷ []) ∷ [])
            (in_order self.old.half self.old.live self.old.spare) (in_order self.new.half self.new.live self.new.spare) }
        ensures calls { D.tells → OnOk result (CallsLater 4 (D.shows self.old.spare) (D.shows self.new.live)) }
        ensures live { OnOk result (self.new.spare ≡ self.old.live) }
        ensures live_err { OnErr result (self.new.live ≡ self.old.live) }
        ensures half { OnOk result (self.new.half + self.old.half ≡ 1) }
        ensures half_err { OnErr result (self.new.half ≡ self.old.half) }
        ensures round { OnOk result (self.new.round ≡ next_round self.old.round) }
        ensures state_ok { OnOk result ((self.old.state ≡ Filling) × (self.new.state ≡ Open)) }
        ensures state_err { OnErr result (self.new.state ≡ Broken) }
        ensures broken { self.old.state ≡ Broken → self.new ≡ self.old }
        ensures cause { OnErr result ((self.old.state ≡ Broken) ⊎ Rose (D.faults self.old.spare) (D.faults self.new.spare)) }
        ensures later { OnOk result (D.faults self.old.spare ≤ D.faults self.new.live) }
        ensures later_err { OnErr result (D.faults self.old.spare ≤ D.faults self.new.spare) }
    {
        let State::Filling = self.state else {
            return Err(DiskFault);
        };
        let end = self.filled + self.buffer.len() as u64 + 1;
        let _ = self.buffer.extend_from_slice(&[0]);
        let switched = switch_half(&mut self.spare, self.filled, &self.buffer);
        self.buffer.clear();
        match switched {
            Ok(()) => {
                mem::swap(&mut self.live, &mut self.spare);
                self.half = 1 - self.half;
                self.round = (self.round + 1) % 3;
                self.end = end;
                self.state = State::Open;
                Ok(())
            }
            Err(_) => {
                self.state = State::Broken;
                Err(DiskFault)
            }
        }
    }
}
