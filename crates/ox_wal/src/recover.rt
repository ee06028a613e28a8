// A log from its journal.
ghost use Rattle.std.specs.Prelude.{◌≡◌, ◌≢◌, ◌⊎◌, ◌≤◌, ◌<◌, ℕ, List, [], ◌∷◌, Some, Err, IfOk, IfErr, OnOk};
ghost use Rattle.ox_types.specs.Durable.{DurableState, blank};
ghost use Rattle.ox_outside.specs.Causes.{Rose};
ghost use Rattle.ox_outside.specs.Disk.{LeavesOnly, Quiet};
ghost use Rattle.ox_journal.specs.Chain.{LeavesInTurn, OneOf, in_order};
ghost use Rattle.ox_journal.specs.Made.{DeadOrMade};
ghost use Rattle.ox_journal.specs.Opening.{BothQuiet, IsUnformatted};
ghost use Rattle.ox_journal.specs.Pair.{IsHalf, IsReading, LeavesPairs};
ghost use Rattle.ox_journal.specs.declared.state.State.TheVariants.{Open, Reading};
ghost use Rattle.ox_wal.specs.Blocks.{blocks_used};
ghost use Rattle.ox_wal.specs.Files.{Breaks, IsDamaged, IsFormatted, Keeps, StandAmong, StandFor, Stands, StandsAs, state_in};
ghost use Rattle.ox_wal.specs.State.{state_of};
ghost use Rattle.ox_wal.specs.declared.fault.WalFault.TheVariants.{Damaged, TooFewBlocks, DiskFault, NoMemory};

use crate::fault::WalFault;
use crate::log::Log;
use crate::wal::Wal;
use ox_journal::{Journal, JournalFault};
use ox_outside::Disk;
use std::alloc::Global;

// Reads every record of a journal.
fn read_all<D: Disk>(alloc: Global, journal: &mut Journal<D>) -> Result<Log, WalFault>
    requires reading { journal.old.state ≡ Reading }
    requires told { D.tells → IsReading (D.shows journal.old.live) (D.shows journal.old.spare) journal.old.round journal.old.end [] }
    ensures kept { D.tells → IfOk result (λ log. Keeps (D.shows journal.new.live) (D.shows journal.new.spare) journal.new.round journal.new.end (state_of log)) }
    ensures held { (payloads : List (List ℕ)) → D.tells → IsHalf journal.old.round payloads ((D.shows journal.old.live).seen)
        → IfOk result (λ log. state_in payloads ≡ Some (state_of log)) }
    ensures held_err { (payloads : List (List ℕ)) (state : DurableState) → D.tells → IsHalf journal.old.round payloads ((D.shows journal.old.live).seen)
        → state_in payloads ≡ Some state → IfErr result (λ e. (e ≡ DiskFault) ⊎ (e ≡ NoMemory)) }
    ensures damaged { (half at : ℕ) → result ≡ Err (Damaged half at)
        → (half ≡ journal.old.half) × (D.tells → Breaks ((D.shows journal.old.live).seen) journal.old.round at) }
    ensures few { (need have : ℕ) → IfErr result (λ e. e ≢ TooFewBlocks need have) }
    ensures state { OnOk result (journal.new.state ≡ Open) }
    ensures quiet { D.tells → Quiet (D.shows journal.old.live) (D.shows journal.new.live) }
    ensures same { (journal.new.half ≡ journal.old.half) × (journal.new.round ≡ journal.old.round) × (journal.new.spare ≡ journal.old.spare) }
    ensures cause { result ≡ Err DiskFault → Rose (D.faults journal.old.live) (D.faults journal.new.live) }
    ensures later { D.faults journal.old.live ≤ D.faults journal.new.live }
{
    let mut log = Log::blank(alloc);
    let mut first = true;
    loop {
        let (half, at) = (journal.half, journal.end);
        match journal.next_payload() {
            Ok(None) => return Ok(log),
            Ok(Some(payload)) => match log.read_payload(
                alloc,
                first,
                payload.as_slice(),
                half,
                at,
            ) {
                Ok(still) => first = still,
                Err(fault) => return Err(fault),
            },
            Err(JournalFault::Damaged { .. }) => return Err(WalFault::Damaged { half, at }),
            Err(JournalFault::DiskFault) => return Err(WalFault::DiskFault),
            Err(_) => return Err(WalFault::NoMemory),
        }
    }
}

impl<D: Disk> Wal<D> {
    /// The log over a journal whose records are read, where there are blocks enough.
    fn over(
        alloc: Global,
        journal: Journal<D>,
        log: Log,
        blocks: u32,
    ) -> Result<Wal<D>, (WalFault, D, D)>
        requires { journal.state ≢ Reading }
        ensures ok { IfOk result (λ w. (w.journal ≡ journal) × (w.log ≡ log) × (w.blocks ≡ blocks)) }
        ensures few { IfErr result (λ e. (e.0 ≡ TooFewBlocks log.used blocks) × (blocks < log.used)) }
        ensures zero { IfErr result (λ e. journal.half ≡ 0 → (e.1 ≡ journal.live) × (e.2 ≡ journal.spare)) }
        ensures one { IfErr result (λ e. journal.half ≡ 1 → (e.1 ≡ journal.spare) × (e.2 ≡ journal.live)) }
    {
        let have = u64::from(blocks);
        let need = log.used;
        if have < need {
            let (first, second) = journal.close();
            return Err((WalFault::TooFewBlocks { need, have }, first, second));
        }
        Ok(Wal {
            journal,
            log,
            blocks: have,
            alloc,
        })
    }

    /// The log that a journal holds.
    fn replay(alloc: Global, journal: Journal<D>, blocks: u32) -> Result<Wal<D>, (WalFault, D, D)>
        requires reading { journal.state ≡ Reading }
        requires told { D.tells → IsReading (D.shows journal.live) (D.shows journal.spare) journal.round journal.end [] }
        ensures kept { D.tells → IfOk result (λ w. Keeps (D.shows w.journal.live) (D.shows w.journal.spare) w.journal.round w.journal.end (state_of w.log)) }
        ensures held { (payloads : List (List ℕ)) → D.tells → IsHalf journal.round payloads ((D.shows journal.live).seen)
            → IfOk result (λ w. state_in payloads ≡ Some (state_of w.log)) }
        ensures held_err { (payloads : List (List ℕ)) (state : DurableState) → D.tells → IsHalf journal.round payloads ((D.shows journal.live).seen)
            → state_in payloads ≡ Some state
            → IfErr result (λ e. (e.0 ≡ DiskFault) ⊎ (e.0 ≡ NoMemory) ⊎ ((e.0 ≡ TooFewBlocks (blocks_used state.entries) blocks) × (blocks < blocks_used state.entries))) }
        ensures damaged { IfErr result (λ e. (half at : ℕ) → e.0 ≡ Damaged half at
            → (half ≡ journal.half) × (D.tells → Breaks ((D.shows journal.live).seen) journal.round at)) }
        ensures few { IfErr result (λ e. (need have : ℕ) → e.0 ≡ TooFewBlocks need have → (have ≡ blocks) × (have < need)) }
        ensures few_told { D.tells → IfErr result (λ e. (need have : ℕ) → e.0 ≡ TooFewBlocks need have
            → (payloads : List (List ℕ)) × (state : DurableState) × IsHalf journal.round payloads ((D.shows journal.live).seen)
            × (state_in payloads ≡ Some state) × (need ≡ blocks_used state.entries)) }
        ensures open_ok { IfOk result (λ w. (w.journal.state ≡ Open) × (w.blocks ≡ blocks)) }
        ensures same { IfOk result (λ w. (w.journal.half ≡ journal.half) × (w.journal.round ≡ journal.round) × (w.journal.spare ≡ journal.spare)) }
        ensures quiet { D.tells → IfOk result (λ w. Quiet (D.shows journal.live) (D.shows w.journal.live)) }
        ensures moved { D.tells → IfOk result (λ w. (w.journal.half ≡ journal.half) × (w.journal.spare ≡ journal.spare)
            × Quiet (D.shows journal.live) (D.shows w.journal.live) × Keeps (D.shows w.journal.live) (D.shows w.journal.spare) w.journal.round w.journal.end (state_of w.log)) }
        ensures zero { IfErr result (λ e. journal.half ≡ 0 → (e.2 ≡ journal.spare) × (D.faults journal.live ≤ D.faults e.1)
            × (e.0 ≡ DiskFault → Rose (D.faults journal.live) (D.faults e.1)) × (D.tells → Quiet (D.shows journal.live) (D.shows e.1))) }
        ensures one { IfErr result (λ e. journal.half ≡ 1 → (e.1 ≡ journal.spare) × (D.faults journal.live ≤ D.faults e.2)
            × (e.0 ≡ DiskFault → Rose (D.faults journal.live) (D.faults e.2)) × (D.tells → Quiet (D.shows journal.live) (D.shows e.2))) }
        ensures later { IfOk result (λ w. (w.journal.half ≡ journal.half) × (w.journal.spare ≡ journal.spare)
            × (D.faults journal.live ≤ D.faults w.journal.live)) }
    {
        let mut journal = journal;
        match read_all(alloc, &mut journal) {
            Ok(log) => Wal::over(alloc, journal, log, blocks),
            Err(fault) => {
                let (first, second) = journal.close();
                Err((fault, first, second))
            }
        }
    }

    /// An empty log on a pair that has no journal.
    fn begin(alloc: Global, first: D, second: D, blocks: u32) -> Result<Wal<D>, (WalFault, D, D)>
        requires { D.tells → IsUnformatted (D.shows first) (D.shows second) }
        ensures kept { D.tells → IfOk result (λ w. Keeps (D.shows w.journal.live) (D.shows w.journal.spare) w.journal.round w.journal.end (state_of w.log)) }
        ensures blank { IfOk result (λ w. state_of w.log ≡ blank) }
        ensures only { IfErr result (λ e. (e.0 ≡ DiskFault) ⊎ (e.0 ≡ NoMemory)) }
        ensures open_ok { IfOk result (λ w. (w.journal.state ≡ Open) × (w.blocks ≡ blocks) × (w.journal.half ≡ 0)) }
        ensures left { D.tells → IfOk result (λ w. (w.journal.spare ≡ second) × LeavesOnly (D.shows first) (D.shows w.journal.live) DeadOrMade) }
        ensures made { D.tells → IfOk result (λ w. (w.journal.half ≡ 0) × (w.journal.spare ≡ second)
            × LeavesOnly (D.shows first) (D.shows w.journal.live) DeadOrMade) }
        ensures left_err { D.tells → IfErr result (λ e. (e.2 ≡ second) × LeavesOnly (D.shows first) (D.shows e.1) DeadOrMade) }
        ensures cause { IfErr result (λ e. e.0 ≡ DiskFault → Rose (D.faults first) (D.faults e.1)) }
        ensures later { IfOk result (λ w. (w.journal.half ≡ 0) × (w.journal.spare ≡ second) × (D.faults first ≤ D.faults w.journal.live)) }
        ensures later_err { IfErr result (λ e. (e.2 ≡ second) × (D.faults first ≤ D.faults e.1)) }
    {
        match Journal::create(alloc, first, second) {
            Ok(journal) => Ok(Wal {
                journal,
                log: Log::blank(alloc),
                blocks: u64::from(blocks),
                alloc,
            }),
            Err((JournalFault::DiskFault, first, second)) => Err((
                WalFault::DiskFault,
                first,
                second,
            )),
            Err((_, first, second)) => Err((WalFault::NoMemory, first, second)),
        }
    }

    /// The log that two disks hold, with so many blocks for its entries; a pair without a journal becomes an empty log.
    /// It begins with a sync of both, and costs the bytes of the journal and a copy of its entries.
    pub fn recover(
        alloc: Global,
        first: D,
        second: D,
        blocks: u32,
    ) -> Result<Wal<D>, (WalFault, D, D)>
        ensures kept { D.tells → IfOk result (λ w. Keeps (D.shows w.journal.live) (D.shows w.journal.spare) w.journal.round w.journal.end (state_of w.log)) }
        ensures stood { D.tells → IfOk result (λ w. Stands ((D.shows first).seen) ((D.shows second).seen) (state_of w.log)) }
        ensures found { (state : DurableState) → D.tells → Stands ((D.shows first).seen) ((D.shows second).seen) state
            → IfOk result (λ w. state_of w.log ≡ state) }
        ensures found_err { (state : DurableState) → D.tells → Stands ((D.shows first).seen) ((D.shows second).seen) state
            → IfErr result (λ e. (e.0 ≡ DiskFault) ⊎ (e.0 ≡ NoMemory) ⊎ ((e.0 ≡ TooFewBlocks (blocks_used state.entries) blocks) × (blocks < blocks_used state.entries))) }
        ensures damaged { D.tells → IfErr result (λ e. (half at : ℕ) → e.0 ≡ Damaged half at
            → IsDamaged ((D.shows first).seen) ((D.shows second).seen) half at) }
        ensures few { IfErr result (λ e. (need have : ℕ) → e.0 ≡ TooFewBlocks need have → (have ≡ blocks) × (have < need)) }
        ensures few_told { D.tells → IfErr result (λ e. (need have : ℕ) → e.0 ≡ TooFewBlocks need have
            → (state : DurableState) × Stands ((D.shows first).seen) ((D.shows second).seen) state × (need ≡ blocks_used state.entries)) }
        ensures open_ok { IfOk result (λ w. (w.journal.state ≡ Open) × (w.blocks ≡ blocks)) }
        ensures any_moment_zero { (state : DurableState) → D.tells → StandFor (D.shows first) (D.shows second) state
            → IfOk result (λ w. w.journal.half ≡ 0 → LeavesPairs (D.shows first) (D.shows second) (D.shows w.journal.live) (D.shows w.journal.spare) (λ c d. Stands c d state)) }
        ensures any_moment_one { (state : DurableState) → D.tells → StandFor (D.shows first) (D.shows second) state
            → IfOk result (λ w. w.journal.half ≡ 1 → LeavesPairs (D.shows first) (D.shows second) (D.shows w.journal.spare) (D.shows w.journal.live) (λ c d. Stands c d state)) }
        ensures any_moment_err { (state : DurableState) → D.tells → StandFor (D.shows first) (D.shows second) state
            → IfErr result (λ e. LeavesPairs (D.shows first) (D.shows second) (D.shows e.1) (D.shows e.2) (λ c d. Stands c d state)) }
        ensures in_turn { (states : List DurableState) → D.tells → StandAmong (D.shows first) (D.shows second) states
            → IfOk result (λ w. LeavesInTurn D.shows StandsAs (states ∷ states ∷ []) (first, second) (in_order w.journal.half w.journal.live w.journal.spare)) }
        ensures in_turn_err { (states : List DurableState) → D.tells → StandAmong (D.shows first) (D.shows second) states
            → IfErr result (λ e. LeavesInTurn D.shows StandsAs (states ∷ states ∷ []) (first, second) (e.1, e.2)) }
        ensures among { (states : List DurableState) → D.tells → StandAmong (D.shows first) (D.shows second) states
            → IfOk result (λ w. OneOf (λ s. state_of w.log ≡ s) states) }
        ensures among_err { (states : List DurableState) → D.tells → StandAmong (D.shows first) (D.shows second) states
            → IfErr result (λ e. StandAmong (D.shows e.1) (D.shows e.2) states) }
        ensures quiet_zero { D.tells → IfOk result (λ w. IsFormatted (D.shows first) (D.shows second) → w.journal.half ≡ 0
            → BothQuiet (D.shows first) (D.shows second) (D.shows w.journal.live) (D.shows w.journal.spare)) }
        ensures quiet_one { D.tells → IfOk result (λ w. IsFormatted (D.shows first) (D.shows second) → w.journal.half ≡ 1
            → BothQuiet (D.shows first) (D.shows second) (D.shows w.journal.spare) (D.shows w.journal.live)) }
        ensures quiet_err { D.tells → IfErr result (λ e. IsFormatted (D.shows first) (D.shows second)
            → BothQuiet (D.shows first) (D.shows second) (D.shows e.1) (D.shows e.2)) }
        ensures second_err { D.tells → IfErr result (λ e. Quiet (D.shows second) (D.shows e.2)) }
        ensures cause { IfErr result (λ e. e.0 ≡ DiskFault → Rose (D.faults first) (D.faults e.1) ⊎ Rose (D.faults second) (D.faults e.2)) }
        ensures later_zero { IfOk result (λ w. w.journal.half ≡ 0 → (D.faults first ≤ D.faults w.journal.live) × (D.faults second ≤ D.faults w.journal.spare)) }
        ensures later_one { IfOk result (λ w. w.journal.half ≡ 1 → (D.faults second ≤ D.faults w.journal.live) × (D.faults first ≤ D.faults w.journal.spare)) }
        ensures later_err { IfErr result (λ e. (D.faults first ≤ D.faults e.1) × (D.faults second ≤ D.faults e.2)) }
    {
        match Journal::recover(alloc, first, second) {
            Ok(journal) => Wal::replay(alloc, journal, blocks),
            Err((JournalFault::Unformatted, first, second)) => Wal::begin(
                alloc, first, second, blocks,
            ),
            Err((JournalFault::Damaged { half, at }, first, second)) => Err((
                WalFault::Damaged { half, at },
                first,
                second,
            )),
            Err((JournalFault::DiskFault, first, second)) => Err((
                WalFault::DiskFault,
                first,
                second,
            )),
            Err((JournalFault::NoMemory, first, second)) => Err((
                WalFault::NoMemory,
                first,
                second,
            )),
        }
    }
}
