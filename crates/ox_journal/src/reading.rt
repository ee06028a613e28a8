// Reads of one half.
ghost use Rattle.std.specs.Prelude.{◌≡◌, ◌<◌, ◌+◌, ◌-◌, ◌^◌, ◌∷◌, ◌++◌, ℕ, List, [], length, take, drop, Ok, Err, None, IfOk, IfErr, IfSome, OnOk, OnErr, ◌⊎◌, ◌≤◌, IsErrOf};
ghost use Rattle.ox_outside.specs.Causes.{HasCause, Rose};
ghost use Rattle.ox_outside.specs.Disk.{IsSynced, Quiet};
ghost use Rattle.ox_journal.specs.Half.{be32};
ghost use Rattle.ox_journal.specs.Head.{head_of, choice, RoundsInRange, ChoiceInRange};
ghost use Rattle.ox_journal.specs.Next.{next_of, StandsAt};
ghost use Rattle.ox_journal.specs.declared.reading.Next.TheVariants.{Record, Ends, Cut};
ghost use Rattle.ox_journal.specs.declared.fault.JournalFault.TheVariants.{NoMemory, DiskFault};
ghost use Rattle.ox_journal.specs.declared.fault.JournalFault.TheVariants.{Damaged};

use crate::fault::JournalFault;
use crate::head::{Choice, Head, choose, parse_head};
use ox_outside::{Disk, Failed};
use ox_types::Octets;
use std::alloc::Global;

/// What stands at a gate: none, a file cut short, or a record of this length.
#[derive(Clone, Copy, Debug, PartialEq, Eq)]
pub enum Next {
    Ends,
    Cut,
    Record { len: u32 },
}

fn read_head<D: Disk>(disk: &mut D) -> Result<Head, Failed>
    ensures range { IfOk result RoundsInRange }
    ensures told { D.tells → IfOk result (λ head. head ≡ head_of ((D.shows disk.old).seen)) }
    ensures quiet { D.tells → Quiet (D.shows disk.old) (D.shows disk.new) }
    ensures cause { HasCause (D.faults disk.old) (D.faults disk.new) result }
{
    let mut bytes = [0u8; 10];
    let n = disk.read_at(0, &mut bytes)?;
    Ok(parse_head(&bytes[..n]))
}

// What the first bytes behind a gate say, in a file with so many bytes.
fn parse_next(bytes: &[u8], end: u64, size: u64) -> Next
    requires size { size < 2 ^ 63 }
    requires end { end < 2 ^ 63 }
    ensures told { (text : List ℕ) → bytes.now ≡ take 5 text → end ≤ size → length text ≡ size - end → result ≡ next_of text }
    ensures front { (len : ℕ) → result ≡ Record len → (end + len + 5 < size) × (len < 2 ^ 32) }
    ensures spelled { (len : ℕ) → result ≡ Record len → bytes.now ≡ 1 ∷ be32 len }
{
    let [gate, rest @ ..] = bytes else {
        return Next::Cut;
    };
    if *gate != 1 {
        return Next::Ends;
    }
    let [a, b, c, d] = rest else {
        return Next::Cut;
    };
    let len = u32::from_be_bytes([*a, *b, *c, *d]);
    if end + 5 + (len as u64) < size {
        Next::Record { len }
    } else {
        Next::Cut
    }
}

// What stands at a gate, without what the record holds.
fn read_next<D: Disk>(disk: &mut D, end: u64) -> Result<Next, Failed>
    requires end { end < 2 ^ 63 }
    requires told { D.tells → end ≤ length ((D.shows disk.old).seen) }
    ensures told { D.tells → IfOk result (λ next. next ≡ next_of (drop end ((D.shows disk.old).seen))) }
    ensures spelled { D.tells → (len : ℕ) → result ≡ Ok (Record len) → take 5 (drop end ((D.shows disk.old).seen)) ≡ 1 ∷ be32 len }
    ensures small { (len : ℕ) → result ≡ Ok (Record len) → (end + len + 5 < 2 ^ 63) × (len < 2 ^ 32) }
    ensures quiet { D.tells → Quiet (D.shows disk.old) (D.shows disk.new) }
    ensures cause { HasCause (D.faults disk.old) (D.faults disk.new) result }
{
    let size = disk.len()?;
    let mut bytes = [0u8; 5];
    let n = disk.read_at(end, &mut bytes)?;
    Ok(parse_next(&bytes[..n], end, size))
}

/// Syncs both halves and tells which is the journal.
pub fn look<D: Disk>(first: &mut D, second: &mut D) -> Result<Choice, Failed>
    ensures told { D.tells → IfOk result (λ is. is ≡ choice (head_of ((D.shows first.old).seen)) (head_of ((D.shows second.old).seen))) }
    ensures range { IfOk result ChoiceInRange }
    ensures quiet_first { D.tells → Quiet (D.shows first.old) (D.shows first.new) }
    ensures quiet_second { D.tells → Quiet (D.shows second.old) (D.shows second.new) }
    ensures synced_first { D.tells → OnOk result (IsSynced (D.shows first.new)) }
    ensures synced_second { D.tells → OnOk result (IsSynced (D.shows second.new)) }
    ensures cause { OnErr result (Rose (D.faults first.old) (D.faults first.new) ⊎ Rose (D.faults second.old) (D.faults second.new)) }
    ensures later { (D.faults first.old ≤ D.faults first.new) × (D.faults second.old ≤ D.faults second.new) }
{
    first.sync()?;
    second.sync()?;
    let one = read_head(first)?;
    let two = read_head(second)?;
    Ok(choose(one, two))
}

// So many bytes from a place on; a byte that the disk doesn't give is 0.
fn read_payload<D: Disk>(
    alloc: Global,
    disk: &mut D,
    at: u64,
    len: u32,
) -> Result<Octets, JournalFault>
    ensures told { D.tells → at + len ≤ length ((D.shows disk.old).seen) → IfOk result (λ bytes. bytes ≡ take len (drop at ((D.shows disk.old).seen))) }
    ensures size { IfOk result (λ bytes. length bytes ≡ len) }
    ensures quiet { D.tells → Quiet (D.shows disk.old) (D.shows disk.new) }
    ensures cause { IsErrOf result DiskFault → Rose (D.faults disk.old) (D.faults disk.new) }
    ensures later { D.faults disk.old ≤ D.faults disk.new }
    ensures only { IfErr result (λ e. (e ≡ DiskFault) ⊎ (e ≡ NoMemory)) }
{
    let Ok(mut bytes) = vec![in alloc; 0u8; len as usize] else {
        return Err(JournalFault::NoMemory);
    };
    match disk.read_at(at, &mut bytes) {
        Ok(_) => Ok(Octets::from_vec(bytes)),
        Err(_) => Err(JournalFault::DiskFault),
    }
}

/// The record at a gate of a half, or None where the records end there.
pub fn read_record<D: Disk>(
    alloc: Global,
    disk: &mut D,
    half: u8,
    end: u64,
) -> Result<Option<Octets>, JournalFault>
    requires end { end < 2 ^ 63 }
    requires told { D.tells → end ≤ length ((D.shows disk.old).seen) }
    ensures some { D.tells → IfOk result (λ given. IfSome given (λ payload. StandsAt ((D.shows disk.old).seen) end payload)) }
    ensures none { D.tells → result ≡ Ok None → next_of (drop end ((D.shows disk.old).seen)) ≡ Ends }
    ensures damaged { D.tells → (bad at : ℕ) → result ≡ Err (Damaged bad at) → next_of (drop end ((D.shows disk.old).seen)) ≡ Cut }
    ensures only { IfErr result (λ e. (e ≡ DiskFault) ⊎ (e ≡ NoMemory) ⊎ (e ≡ Damaged half end)) }
    ensures small { IfOk result (λ given. IfSome given (λ payload. (end + length payload + 5 < 2 ^ 63) × (length payload < 2 ^ 32))) }
    ensures quiet { D.tells → Quiet (D.shows disk.old) (D.shows disk.new) }
    ensures cause { IsErrOf result DiskFault → Rose (D.faults disk.old) (D.faults disk.new) }
    ensures later { D.faults disk.old ≤ D.faults disk.new }
{
    match read_next(disk, end) {
        Err(_) => Err(JournalFault::DiskFault),
        Ok(Next::Ends) => Ok(None),
        Ok(Next::Cut) => Err(JournalFault::Damaged { half, at: end }),
        Ok(Next::Record { len }) => {
            let payload = read_payload(alloc, disk, end + 5, len)?;
            Ok(Some(payload))
        }
    }
}
