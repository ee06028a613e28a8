// A replica from its disks.
ghost use Rattle.std.specs.Prelude.{◌≡◌, ◌≢◌, ◌⊎◌, ◌≤◌, ◌<◌, ◌&&◌, ℕ, true, false, nat_le, is_some, IsTrue, IfOk, IfErr};
ghost use Rattle.std.specs.Option.{ForSome};
ghost use Rattle.ox_types.specs.Durable.{DurableState};
ghost use Rattle.ox_outside.specs.Causes.{Rose};
ghost use Rattle.ox_journal.specs.Pair.{LeavesPairs};
ghost use Rattle.ox_journal.specs.declared.state.State.TheVariants.{Open};
ghost use Rattle.ox_machine.specs.Store.{RunsFrom};
ghost use Rattle.ox_wal.specs.Blocks.{blocks_used};
ghost use Rattle.ox_wal.specs.Files.{IsDamaged, Keeps, StandFor, Stands};
ghost use Rattle.ox_wal.specs.State.{state_of};
ghost use Rattle.ox_wal.specs.declared.fault.WalFault.TheVariants as fault_is;
ghost use Rattle.ox_solo_replica.specs.Recovered as recovers;
ghost use Rattle.ox_solo_replica.specs.Sound.{IsSound};

use crate::applying::{TIME_LIMIT, are_read};
use crate::live::Live;
use ox_machine::Machine;
use ox_outside::Disk;
use ox_types::NoMemory;
use ox_wal::{Log, Wal, WalFault};
use std::alloc::Global;

/// The place where a log is damaged that a replica doesn't start from.
const LOG_PLACE: u64 = 10;

/// Whether no snapshot stands before the entries, and the term is within its limit.
fn is_plain(log: &Log) -> bool
    ensures { result ≡ (recovers.is_unsaved (state_of log.now) && nat_le log.now.term 9007199254740992) }
{
    log.base.term.0 == 0 && log.base.count == 0 && log.saved.is_none() && log.term.0 <= TIME_LIMIT
}

/// Whether a replica starts from this log. It costs a decoding of the commands.
fn is_usable<M: Machine>(alloc: Global, log: &Log) -> Result<bool, NoMemory>
    ensures exact { IfOk result (λ b. b ≡ recovers.is_usable M.meaning (state_of log.now)) }
    ensures runs { IfOk result (λ b. IsTrue b → RunsFrom 0 log.now.entries.items) }
{
    if !is_plain(log) {
        return Ok(false);
    }
    are_read::<M>(alloc, log.entries.as_slice())
}

/// What is known beside a log after a start, or None where no replica starts from it.
fn opening<M: Machine>(alloc: Global, log: &Log) -> Result<Option<Live<M>>, NoMemory>
    ensures usable { IfOk result (λ live. is_some live ≡ recovers.is_usable M.meaning (state_of log.now)) }
    ensures live { IfOk result (λ live. ForSome live (λ l. l ≡ recovers.recovered M.meaning (state_of log.now))) }
    ensures sound { IfOk result (λ live. ForSome live (λ l. IsSound M.meaning (state_of log.now) l)) }
{
    if !is_usable::<M>(alloc, log)? {
        return Ok(None);
    }
    let machine = M::empty(alloc)?;
    Ok(Some(Live {
        commit: log.base.count,
        machine,
        now: 0,
        hint: None,
        leading: None,
    }))
}

/// The two disks of a log that isn't taken, with the reason.
fn refused<D: Disk>(wal: Wal<D>, fault: WalFault) -> (WalFault, D, D)
    ensures fault { result.0 ≡ fault }
    ensures zero { wal.journal.half ≡ 0 → (result.1 ≡ wal.journal.live) × (result.2 ≡ wal.journal.spare) }
    ensures one { wal.journal.half ≡ 1 → (result.1 ≡ wal.journal.spare) × (result.2 ≡ wal.journal.live) }
{
    let (first, second) = wal.close();
    (fault, first, second)
}

/// The log that two disks hold, and what a replica knows beside it after a start: nothing is committed, and it doesn't lead.
/// A pair without a journal becomes an empty log. The log is refused where the machine doesn't read one of its commands. It
/// begins with a sync of both disks, and costs the bytes of the journal, a copy of its entries, and a decoding of the commands.
pub fn recover_at<M: Machine, D: Disk>(
    alloc: Global,
    first: D,
    second: D,
    blocks: u32,
) -> Result<(Wal<D>, Live<M>), (WalFault, D, D)>
    ensures usable { IfOk result (λ r. recovers.is_usable M.meaning (state_of r.0.log) ≡ true) }
    ensures live { IfOk result (λ r. r.1 ≡ recovers.recovered M.meaning (state_of r.0.log)) }
    ensures sound { IfOk result (λ r. IsSound M.meaning (state_of r.0.log) r.1) }
    ensures kept { D.tells → IfOk result (λ r. Keeps (D.shows r.0.journal.live) (D.shows r.0.journal.spare) r.0.journal.round r.0.journal.end (state_of r.0.log)) }
    ensures stood { D.tells → IfOk result (λ r. Stands ((D.shows first).seen) ((D.shows second).seen) (state_of r.0.log)) }
    ensures found { (state : DurableState) → D.tells → Stands ((D.shows first).seen) ((D.shows second).seen) state
        → IfOk result (λ r. state_of r.0.log ≡ state) }
    ensures found_err { (state : DurableState) → D.tells → Stands ((D.shows first).seen) ((D.shows second).seen) state → recovers.is_usable M.meaning state ≡ true
        → IfErr result (λ e. (e.0 ≡ fault_is.DiskFault) ⊎ (e.0 ≡ fault_is.NoMemory) ⊎ ((e.0 ≡ fault_is.TooFewBlocks (blocks_used state.entries) blocks) × (blocks < blocks_used state.entries))) }
    ensures damaged { D.tells → IfErr result (λ e. (half at : ℕ) → e.0 ≡ fault_is.Damaged half at
        → IsDamaged ((D.shows first).seen) ((D.shows second).seen) half at
        ⊎ ((state : DurableState) × Stands ((D.shows first).seen) ((D.shows second).seen) state × (recovers.is_usable M.meaning state ≡ false) × (at ≡ 10))) }
    ensures few { IfErr result (λ e. (need have : ℕ) → e.0 ≡ fault_is.TooFewBlocks need have → (have ≡ blocks) × (have < need)) }
    ensures few_told { D.tells → IfErr result (λ e. (need have : ℕ) → e.0 ≡ fault_is.TooFewBlocks need have
        → (state : DurableState) × Stands ((D.shows first).seen) ((D.shows second).seen) state × (need ≡ blocks_used state.entries)) }
    ensures open_ok { IfOk result (λ r. (r.0.journal.state ≡ Open) × (r.0.blocks ≡ blocks)) }
    ensures any_moment_zero { (state : DurableState) → D.tells → StandFor (D.shows first) (D.shows second) state
        → IfOk result (λ r. r.0.journal.half ≡ 0 → LeavesPairs (D.shows first) (D.shows second) (D.shows r.0.journal.live) (D.shows r.0.journal.spare) (λ c d. Stands c d state)) }
    ensures any_moment_one { (state : DurableState) → D.tells → StandFor (D.shows first) (D.shows second) state
        → IfOk result (λ r. r.0.journal.half ≡ 1 → LeavesPairs (D.shows first) (D.shows second) (D.shows r.0.journal.spare) (D.shows r.0.journal.live) (λ c d. Stands c d state)) }
    ensures any_moment_err { (state : DurableState) → D.tells → StandFor (D.shows first) (D.shows second) state
        → IfErr result (λ e. LeavesPairs (D.shows first) (D.shows second) (D.shows e.1) (D.shows e.2) (λ c d. Stands c d state)) }
    ensures cause { IfErr result (λ e. e.0 ≡ fault_is.DiskFault → Rose (D.faults first) (D.faults e.1) ⊎ Rose (D.faults second) (D.faults e.2)) }
    ensures later_zero { IfOk result (λ r. r.0.journal.half ≡ 0 → (D.faults first ≤ D.faults r.0.journal.live) × (D.faults second ≤ D.faults r.0.journal.spare)) }
    ensures later_one { IfOk result (λ r. r.0.journal.half ≡ 1 → (D.faults second ≤ D.faults r.0.journal.live) × (D.faults first ≤ D.faults r.0.journal.spare)) }
    ensures later_err { IfErr result (λ e. (D.faults first ≤ D.faults e.1) × (D.faults second ≤ D.faults e.2)) }
{
    let wal = Wal::recover(alloc, first, second, blocks)?;
    match opening::<M>(alloc, &wal.log) {
        Ok(Some(live)) => Ok((wal, live)),
        Ok(None) => {
            let fault = WalFault::Damaged {
                half: wal.journal.half,
                at: LOG_PLACE,
            };
            Err(refused(wal, fault))
        }
        Err(NoMemory) => Err(refused(wal, WalFault::NoMemory)),
    }
}
