// Making a journal, and recovering one.
ghost use Rattle.std.specs.Prelude.{◌≡◌, ◌⊎◌, ◌≤◌, ℕ, List, [], ◌∷◌, Some, None, IfOk, IfErr};
ghost use Rattle.ox_outside.specs.Causes.{Rose};
ghost use Rattle.ox_outside.specs.Disk.{LeavesOnly};
ghost use Rattle.ox_journal.specs.Chain.{FilesHold, LeavesInTurn, in_order};
ghost use Rattle.ox_journal.specs.Made.{DeadOrMade, UnformattedOrEmpty};
ghost use Rattle.ox_journal.specs.Opening.{chosen, BothQuiet, Recovered, IsUnformatted};
ghost use Rattle.ox_journal.specs.Pair.{IsHalf, Holds, IsOpen, LeavesPairs};
ghost use Rattle.ox_journal.specs.declared.state.State.TheVariants.{Open, Reading};
ghost use Rattle.ox_journal.specs.declared.fault.JournalFault.TheVariants.{Unformatted, DiskFault, NoMemory};
ghost use Rattle.ox_journal.specs.declared.fault.JournalFault.TheVariants.{Damaged as DamagedAt};
ghost use Rattle.ox_journal.specs.declared.head.Choice.TheVariants.{Neither, Damaged};

use crate::fault::JournalFault;
use crate::head::Choice;
use crate::journal::Journal;
use crate::making::make_half;
use crate::reading::look;
use crate::state::State;
use ox_outside::Disk;
use std::alloc::Global;

// What waits for a piece, and the greatest record with its following gate.
const ROOM: usize = 1_048_576 + 4_194_309;

impl<D: Disk> Journal<D> {
    /// Makes an empty journal on a pair that has none.
    pub fn create(alloc: Global, first: D, second: D) -> Result<Journal<D>, (JournalFault, D, D)>
        requires { D.tells → IsUnformatted (D.shows first) (D.shows second) }
        ensures open { D.tells → IfOk result (λ j. IsOpen (D.shows j.live) (D.shows j.spare) j.round j.end []) }
        ensures state { IfOk result (λ j. j.state ≡ Open) }
        ensures half { IfOk result (λ j. (j.half ≡ 0) × (j.round ≡ 0)) }
        ensures any_moment { D.tells → IfOk result (λ j.
            LeavesPairs (D.shows first) (D.shows second) (D.shows j.live) (D.shows j.spare) UnformattedOrEmpty) }
        ensures any_moment_err { D.tells → IfErr result (λ e.
            LeavesPairs (D.shows first) (D.shows second) (D.shows e.1) (D.shows e.2) UnformattedOrEmpty) }
        ensures in_turn { D.tells → IfOk result (λ j.
            LeavesInTurn D.shows FilesHold ((None ∷ Some [] ∷ []) ∷ []) (first, second) (in_order j.half j.live j.spare)) }
        ensures in_turn_err { D.tells → IfErr result (λ e.
            LeavesInTurn D.shows FilesHold ((None ∷ Some [] ∷ []) ∷ []) (first, second) (e.1, e.2)) }
        ensures live { D.tells → IfOk result (λ j. LeavesOnly (D.shows first) (D.shows j.live) DeadOrMade) }
        ensures live_err { D.tells → IfErr result (λ e. LeavesOnly (D.shows first) (D.shows e.1) DeadOrMade) }
        ensures spare { IfOk result (λ j. j.spare ≡ second) }
        ensures spare_err { IfErr result (λ e. e.2 ≡ second) }
        ensures cause { IfErr result (λ e. (e.0 ≡ NoMemory) ⊎ ((e.0 ≡ DiskFault) × Rose (D.faults first) (D.faults e.1))) }
        ensures later { IfOk result (λ j. (D.faults first ≤ D.faults j.live) × (D.faults second ≤ D.faults j.spare)) }
        ensures later_err { IfErr result (λ e. (D.faults first ≤ D.faults e.1) × (D.faults second ≤ D.faults e.2)) }
    {
        let mut first = first;
        let Ok(buffer) = Vec::with_capacity(alloc, ROOM) else {
            return Err((JournalFault::NoMemory, first, second));
        };
        match make_half(&mut first) {
            Ok(()) => Ok(Journal {
                live: first,
                spare: second,
                half: 0,
                round: 0,
                end: 10,
                state: State::Open,
                filled: 0,
                left: 0,
                buffer,
                alloc,
            }),
            Err(_) => Err((JournalFault::DiskFault, first, second)),
        }
    }

    /// Reads which half is the journal, and changes nothing.
    pub fn recover(alloc: Global, first: D, second: D) -> Result<Journal<D>, (JournalFault, D, D)>
        ensures found { D.tells → IfOk result (λ j.
            Recovered (D.shows first) (D.shows second) (D.shows j.live) (D.shows j.spare) j.half j.round j.end) }
        ensures state { IfOk result (λ j. j.state ≡ Reading) }
        ensures held { (payloads : List (List ℕ)) → D.tells → Holds ((D.shows first).seen) ((D.shows second).seen) payloads
            → IfOk result (λ j. IsHalf j.round payloads ((D.shows j.live).seen)) }
        ensures held_err { (payloads : List (List ℕ)) → D.tells → Holds ((D.shows first).seen) ((D.shows second).seen) payloads
            → IfErr result (λ e. (e.0 ≡ DiskFault) ⊎ (e.0 ≡ NoMemory)) }
        ensures quiet { D.tells → IfErr result (λ e. BothQuiet (D.shows first) (D.shows second) (D.shows e.1) (D.shows e.2)) }
        ensures unformatted { D.tells → IfErr result (λ e. e.0 ≡ Unformatted → IsUnformatted (D.shows e.1) (D.shows e.2)) }
        ensures damaged { D.tells → IfErr result (λ e. (half at : _) → e.0 ≡ DamagedAt half at → chosen (D.shows first) (D.shows second) ≡ Damaged half at) }
        ensures zero { IfOk result (λ j. j.half ≡ 0 → (D.faults first ≤ D.faults j.live) × (D.faults second ≤ D.faults j.spare)) }
        ensures one { IfOk result (λ j. j.half ≡ 1 → (D.faults second ≤ D.faults j.live) × (D.faults first ≤ D.faults j.spare)) }
        ensures later_err { IfErr result (λ e. (D.faults first ≤ D.faults e.1) × (D.faults second ≤ D.faults e.2)) }
        ensures cause { IfErr result (λ e. e.0 ≡ DiskFault → Rose (D.faults first) (D.faults e.1) ⊎ Rose (D.faults second) (D.faults e.2)) }
    {
        let mut first = first;
        let mut second = second;
        let Ok(buffer) = Vec::with_capacity(alloc, ROOM) else {
            return Err((JournalFault::NoMemory, first, second));
        };
        match look(&mut first, &mut second) {
            Err(_) => Err((JournalFault::DiskFault, first, second)),
            Ok(Choice::Neither) => Err((JournalFault::Unformatted, first, second)),
            Ok(Choice::Damaged { half, at }) => Err((
                JournalFault::Damaged { half, at },
                first,
                second,
            )),
            Ok(Choice::Live { half, round }) => {
                if half == 0 {
                    Ok(Journal {
                        live: first,
                        spare: second,
                        half,
                        round,
                        end: 10,
                        state: State::Reading,
                        filled: 0,
                        left: 0,
                        buffer,
                        alloc,
                    })
                } else {
                    Ok(Journal {
                        live: second,
                        spare: first,
                        half,
                        round,
                        end: 10,
                        state: State::Reading,
                        filled: 0,
                        left: 0,
                        buffer,
                        alloc,
                    })
                }
            }
        }
    }

    /// The two disks again, the first half's first. Nothing is written.
    pub fn close(self) -> (D, D)
        ensures zero { self.half ≡ 0 → (result.0 ≡ self.live) × (result.1 ≡ self.spare) }
        ensures one { self.half ≡ 1 → (result.0 ≡ self.spare) × (result.1 ≡ self.live) }
        ensures order { result ≡ in_order self.half self.live self.spare }
    {
        let Journal {
            live,
            spare,
            half,
            ..
        } = self;
        if half == 0 {
            (live, spare)
        } else {
            (spare, live)
        }
    }
}
