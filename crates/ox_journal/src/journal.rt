// A journal on a pair of disks.
ghost use Rattle.std.specs.Prelude.{◌≡◌, ◌≢◌, ◌⊎◌, ◌<◌, ◌≤◌, ◌+◌, ◌^◌, [], ◌∷◌, ◌++◌, ℕ, List, Option, Some, length, vec_capacity, OnOk, OnErr, IsErr};
ghost use Rattle.ox_outside.specs.Causes.{Rose};
ghost use Rattle.ox_outside.specs.Disk.{CallsLater, LeavesOnly};
ghost use Rattle.ox_journal.specs.Chain.{FilesHold, LeavesInTurn, in_order};
ghost use Rattle.ox_journal.specs.Half.{record_text};
ghost use Rattle.ox_journal.specs.Pair.{IsOpen, LeavesPairs};
ghost use Rattle.ox_journal.specs.Appended.{HalfWithOrWithout, BeforeOrAfter};
ghost use Rattle.ox_journal.specs.declared.state.State.TheVariants.{Reading, Broken};

use crate::record::add_record;
use crate::state::State;
use ox_outside::{Disk, DiskFault};
use std::alloc::Global;

/// Records in two files, of which one is the journal (`live`) and the other what it is rewritten into (`spare`).
/// The calls that write need that the journal was created, or that `next_payload` has answered None.
/// It holds 5 MiB of memory from when it is made, so that no call that writes takes any.
#[derive(Drop)]
pub struct Journal<D: Disk> {
    pub live: D,
    pub spare: D,
    pub half: u8,
    pub round: u8,
    pub end: u64,
    pub state: State,
    pub filled: u64,
    pub left: u64,
    pub buffer: Vec<u8>,
    pub alloc: Global,
    ghost halves: { half < 2 },
    ghost rounds: { round < 3 },
    ghost small: { end < 2 ^ 63 },
    ghost filled_small: { filled < 2 ^ 63 },
    ghost gathered: { length buffer.items < 1048576 },
    ghost room: { 5242885 ≤ vec_capacity buffer },
}

// A record and a closed gate, behind what a buffer with the room holds.
fn gather(buffer: &mut Vec<u8>, payload: &[u8])
    requires size { length payload.now ≤ 4194304 }
    requires gathered { length buffer.old.items < 1048576 }
    requires room { 5242885 ≤ vec_capacity buffer.old }
    ensures items { buffer.new.items ≡ buffer.old.items ++ (record_text payload.now ++ 0 ∷ []) }
    ensures room { 5242885 ≤ vec_capacity buffer.new }
{
    let len = payload.len() as u32;
    let _ = buffer.extend_from_slice(&len.to_be_bytes());
    let _ = buffer.extend_from_slice(payload);
    let _ = buffer.extend_from_slice(&[0]);
}

// What stands from a place on.
fn rest_of(bytes: &[u8], at: usize) -> &[u8]
    requires { at ≤ length bytes.now }
    ensures { (front rest : List ℕ) → bytes.now ≡ front ++ rest → length front ≡ at → result.now ≡ rest }
{
    &bytes[at..]
}

impl<D: Disk> Journal<D> {
    /// Two runs of calls, one behind the other, are one.
    pub fn law_joined()
        ensures { (steps more : List (List (Option (List (List ℕ))))) (first mid last : D × D)
            → LeavesInTurn D.shows FilesHold steps first mid → LeavesInTurn D.shows FilesHold more mid last
            → LeavesInTurn D.shows FilesHold (steps ++ more) first last }
    {}

    /// Adds a record by four calls on the journal's disk. At `Ok` it is acknowledged: from then on each crash leaves a pair that has it.
    /// A rewrite that was begun goes on, and won't have it.
    pub fn append(&mut self, payload: &[u8]) -> Result<(), DiskFault>
        requires size { length payload.now ≤ 4194304 }
        requires state { self.old.state ≢ Reading }
        requires told { D.tells → self.old.state ≢ Broken
            → (payloads : List (List ℕ)) × IsOpen (D.shows self.old.live) (D.shows self.old.spare) self.old.round self.old.end payloads }

        ensures done { (payloads : List (List ℕ)) → D.tells → self.old.state ≢ Broken
            → IsOpen (D.shows self.old.live) (D.shows self.old.spare) self.old.round self.old.end payloads
            → OnOk result (IsOpen (D.shows self.new.live) (D.shows self.new.spare) self.new.round self.new.end (payloads ++ payload.now ∷ [])) }
        ensures any_moment { (payloads : List (List ℕ)) → D.tells → self.old.state ≢ Broken
            → IsOpen (D.shows self.old.live) (D.shows self.old.spare) self.old.round self.old.end payloads
            → LeavesPairs (D.shows self.old.live) (D.shows self.old.spare) (D.shows self.new.live) (D.shows self.new.spare)
            (BeforeOrAfter payloads payload.now) }
        ensures in_turn { (payloads : List (List ℕ)) → D.tells → self.old.state ≢ Broken
            → IsOpen (D.shows self.old.live) (D.shows self.old.spare) self.old.round self.old.end payloads
            → LeavesInTurn D.shows FilesHold ((Some payloads ∷ Some (payloads ++ payload.now ∷ []) ∷ []) ∷ [])
            (in_order self.old.half self.old.live self.old.spare) (in_order self.new.half self.new.live self.new.spare) }
        ensures live { (payloads : List (List ℕ)) → D.tells → self.old.state ≢ Broken
            → IsOpen (D.shows self.old.live) (D.shows self.old.spare) self.old.round self.old.end payloads
            → LeavesOnly (D.shows self.old.live) (D.shows self.new.live) (HalfWithOrWithout self.old.round payloads payload.now) }
        ensures calls { D.tells → OnOk result (CallsLater 4 (D.shows self.old.live) (D.shows self.new.live)) }
        ensures spare { self.new.spare ≡ self.old.spare }
        ensures rewrite { (self.new.filled ≡ self.old.filled) × (self.new.left ≡ self.old.left) × (self.new.buffer.items ≡ self.old.buffer.items) }
        ensures same { (self.new.half ≡ self.old.half) × (self.new.round ≡ self.old.round) }
        ensures state_ok { OnOk result ((self.old.state ≢ Broken) × (self.new.state ≡ self.old.state)) }
        ensures state_err { OnErr result (self.new.state ≡ Broken) }
        ensures broken { self.old.state ≡ Broken → self.new ≡ self.old }
        ensures cause { OnErr result ((self.old.state ≡ Broken) ⊎ Rose (D.faults self.old.live) (D.faults self.new.live)) }
        ensures later { D.faults self.old.live ≤ D.faults self.new.live }
    {
        if let State::Broken = self.state {
            return Err(DiskFault);
        }
        let pending = self.buffer.len();
        gather(&mut self.buffer, payload);
        let added = add_record(&mut self.live, self.end, rest_of(&self.buffer, pending));
        self.buffer.truncate(pending);
        match added {
            Ok(()) => {
                self.end += payload.len() as u64 + 5;
                Ok(())
            }
            Err(_) => {
                self.state = State::Broken;
                Err(DiskFault)
            }
        }
    }
}
