// A disk in memory.
ghost use Rattle.std.specs.Prelude.{◌≡◌, ◌≤◌, ◌<◌, ◌+◌, ◌^◌, ◌++◌, ◌∷◌, [], length, take, drop, vec_capacity, Contains, IfOk, OnOk, OnErr, IsErr, IsFalse, ◌↔◌};
ghost use Rattle.ox_outside.specs.Disk.{IsSynced, MayLeave};
ghost use Rattle.ox_memory.specs.Log.{put, seen_of, image_of, after, Fits, shown};
ghost use Rattle.ox_memory.specs.declared.log.Call.TheVariants.{Write};
ghost use Rattle.ox_memory.specs.Fitting.{fits_prop};

use crate::counting::{answer, fail, fails, starve};
use crate::log::{Call, Image, note};
use crate::replay::{crash_files, put, replay};
use crate::streams::copy_front;
use ox_outside::{Disk, Failed};
use ox_types::{List, NoMemory, Octets};
use std::alloc::Global;

/// A blank file at first. It keeps each call that changed it, so it takes the memory of all bytes that were written.
/// A write that is to fail counts as one: its bytes are there, and unsynced. `starved` counts the faults by want of memory.
#[derive(Drop)]
pub struct MemoryDisk {
    pub log: Vec<Call>,
    pub calls: u64,
    pub faults: u64,
    pub starved: u64,
    pub failing: List<u64>,
    alloc: Global,
    file: Vec<u8>,
    safe: Vec<u8>,
    synced: usize,
    ghost seen: { file.items ≡ seen_of (after log.items) },
    ghost safe_is: { safe.items ≡ (after log.items).safe },
    ghost writes: { drop synced log.items ≡ (after log.items).writes },
    ghost fits: { Fits ((after log.items).safe) ((after log.items).writes) } by { fits_prop ((after log.items).safe) ((after log.items).writes) },
    ghost within: { synced ≤ length log.items },
    ghost room: { length file.items ≤ vec_capacity file },
    ghost safe_room: { length file.items ≤ vec_capacity safe },
    ghost slot: { synced < length log.items → length log.items < vec_capacity log },
}

impl MemoryDisk {
    /// A blank disk that never fails, but where memory runs out.
    pub fn sound(alloc: Global) -> Result<MemoryDisk, NoMemory>
        ensures blank { IfOk result (λ d. (shown d.log.items d.calls).seen ≡ []) }
        ensures synced { IfOk result (λ d. IsSynced (shown d.log.items d.calls)) }
        ensures sound { IfOk result (λ d. d.failing ≡ []) }
        ensures counts { IfOk result (λ d. (d.calls ≡ 0) × (d.faults ≡ 0) × (d.starved ≡ 0)) }
    {
        MemoryDisk::with_failing(alloc, List::new(alloc))
    }

    /// A blank disk that lets the calls with these numbers fail, counted from 1.
    pub fn with_failing(alloc: Global, calls: List<u64>) -> Result<MemoryDisk, NoMemory>
        ensures blank { IfOk result (λ d. (shown d.log.items d.calls).seen ≡ []) }
        ensures synced { IfOk result (λ d. IsSynced (shown d.log.items d.calls)) }
        ensures failing { IfOk result (λ d. d.failing ≡ calls) }
        ensures counts { IfOk result (λ d. (d.calls ≡ 0) × (d.faults ≡ 0) × (d.starved ≡ 0)) }
    {
        Ok(MemoryDisk {
            log: Vec::new(alloc),
            calls: 0,
            faults: 0,
            starved: 0,
            failing: calls,
            alloc,
            file: Vec::new(alloc),
            safe: Vec::new(alloc),
            synced: 0,
        })
    }

    /// Crashes: of the writes since the last sync that is left which the image says. It isn't a call that is counted, and takes no memory.
    pub fn crash(&mut self, image: Image)
        ensures seen { (shown self.new.log.items self.new.calls).seen ≡ image_of image (after self.old.log.items) }
        ensures left { MayLeave (shown self.old.log.items self.old.calls) ((shown self.new.log.items self.new.calls).seen) }
        ensures synced { IsSynced (shown self.new.log.items self.new.calls) }
        ensures counts { (self.new.calls ≡ self.old.calls) × (self.new.faults ≡ self.old.faults) × (self.new.starved ≡ self.old.starved) }
        ensures failing { self.new.failing ≡ self.old.failing }
    {
        if self.synced == self.log.len() {
            return;
        }
        crash_files(
            &mut self.file,
            &mut self.safe,
            &self.log[self.synced..],
            image,
        );
        note(&mut self.log, Call::Crash(image));
        self.synced = self.log.len();
    }
}

// Adds a write to the log, with room for a crash, and to the file, with as much room for the safe one.
fn add_write(
    log: &mut Vec<Call>,
    file: &mut Vec<u8>,
    safe: &mut Vec<u8>,
    at: usize,
    bytes: Octets,
) -> Result<(), NoMemory>
    requires place { at ≤ length file.old.items }
    requires end { at + length bytes < 2 ^ 63 }
    requires room { length file.old.items ≤ vec_capacity file.old }
    requires safe_room { length file.old.items ≤ vec_capacity safe.old }
    ensures log { OnOk result (log.new.items ≡ log.old.items ++ Write at bytes ∷ []) }
    ensures file { OnOk result (file.new.items ≡ put file.old.items at bytes) }
    ensures log_err { OnErr result (log.new.items ≡ log.old.items) }
    ensures file_err { OnErr result (file.new.items ≡ file.old.items) }
    ensures slot { OnOk result (length log.new.items < vec_capacity log.new) }
    ensures slot_err { vec_capacity log.old ≤ vec_capacity log.new }
    ensures safe { safe.new.items ≡ safe.old.items }
    ensures room { length file.new.items ≤ vec_capacity file.new }
    ensures safe_room { length file.new.items ≤ vec_capacity safe.new }
{
    log.try_reserve(2)?;
    let end = at + bytes.len();
    if end > safe.len() {
        let more = end - safe.len();
        safe.try_reserve(more)?;
    }
    put(file, at, bytes.as_slice())?;
    let at = at as u64;
    note(log, Call::Write { at, bytes });
    Ok(())
}

impl Disk for MemoryDisk {
    ghost use Rattle.std.specs.Prelude.{◌≡◌, ◌≤◌, ◌+◌, ◌^◌, ◌<◌, ◌⊎◌, ◌++◌, ◌∷◌, [], length, Contains, IfOk, OnOk, IsErr};
    ghost use Rattle.ox_outside.specs.Causes.{HasCause, Rose};
    ghost use Rattle.ox_outside.specs.Stream.{ReadsWithin};
    ghost use Rattle.ox_outside.specs.Disk.{Stays, Writes, Syncs, Reads};
    ghost use Rattle.ox_memory.specs.Log.{shown};
    ghost use Rattle.ox_memory.specs.declared.log.Call.TheVariants.{Write};

    ghost tells = { Unit {0} };

    ghost shows = { λ d. shown d.log.items d.calls };

    ghost faults = { λ d. d.faults };

    fn read_at(&mut self, at: u64, into: &mut [u8]) -> Result<usize, Failed>
        ensures within { ReadsWithin result into.new }
        ensures bytes { Reads ((shown self.old.log.items self.old.calls).seen) at into.old into.new result }
        ensures stays { Stays (shown self.old.log.items self.old.calls) (shown self.new.log.items self.new.calls) }
        ensures cause { HasCause self.old.faults self.new.faults result }
        ensures asked { IsErr result ↔ Contains self.old.failing self.new.calls }
        ensures failing { self.new.failing ≡ self.old.failing }
    {
        if fails(&mut self.calls, self.failing.as_slice()) {
            return Err(fail(&mut self.faults));
        }
        if at >= self.file.len() as u64 {
            return Ok(0);
        }
        Ok(copy_front(into, &self.file[at as usize..]))
    }

    fn write_at(&mut self, at: u64, bytes: &[u8]) -> Result<(), Failed>
        requires { at ≤ length ((shown self.old.log.items self.old.calls).seen) }
        ensures fits { OnOk result (at + length bytes.now < 2 ^ 63) }
        ensures writes { Writes (shown self.old.log.items self.old.calls) at bytes.now (shown self.new.log.items self.new.calls) result }
        ensures cause { HasCause self.old.faults self.new.faults result }
        ensures asked { Contains self.old.failing self.new.calls → IsErr result }
        ensures failing { self.new.failing ≡ self.old.failing }
        ensures kept { at + length bytes.now < 2 ^ 63 → (self.new.log.items ≡ self.old.log.items ++ Write at bytes.now ∷ []) ⊎ Rose self.old.starved self.new.starved }
        ensures only { IsErr result → Contains self.old.failing self.new.calls ⊎ (2 ^ 63 ≤ at + length bytes.now) ⊎ Rose self.old.starved self.new.starved }
    {
        let asked = fails(&mut self.calls, self.failing.as_slice());
        if is_too_long(at, bytes.len()) {
            return Err(fail(&mut self.faults));
        }
        let Ok(bytes) = Octets::from_slice(self.alloc, bytes) else {
            return Err(starve(&mut self.starved, &mut self.faults));
        };
        match add_write(
            &mut self.log,
            &mut self.file,
            &mut self.safe,
            at as usize,
            bytes,
        ) {
            Ok(()) => answer(asked, &mut self.faults),
            Err(_) => Err(starve(&mut self.starved, &mut self.faults)),
        }
    }

    fn len(&mut self) -> Result<u64, Failed>
        ensures length { IfOk result (λ n. n ≡ length ((shown self.old.log.items self.old.calls).seen)) }
        ensures fits { IfOk result (λ n. n < 2 ^ 63) }
        ensures stays { Stays (shown self.old.log.items self.old.calls) (shown self.new.log.items self.new.calls) }
        ensures cause { HasCause self.old.faults self.new.faults result }
        ensures asked { IsErr result ↔ Contains self.old.failing self.new.calls }
        ensures failing { self.new.failing ≡ self.old.failing }
    {
        if fails(&mut self.calls, self.failing.as_slice()) {
            return Err(fail(&mut self.faults));
        }
        Ok(self.file.len() as u64)
    }

    fn sync(&mut self) -> Result<(), Failed>
        ensures syncs { Syncs (shown self.old.log.items self.old.calls) (shown self.new.log.items self.new.calls) result }
        ensures cause { HasCause self.old.faults self.new.faults result }
        ensures asked { Contains self.old.failing self.new.calls → IsErr result }
        ensures failing { self.new.failing ≡ self.old.failing }
        ensures only { IsErr result → Contains self.old.failing self.new.calls ⊎ Rose self.old.starved self.new.starved }
    {
        if fails(&mut self.calls, self.failing.as_slice()) {
            return Err(fail(&mut self.faults));
        }
        if self.log.try_reserve(1).is_err() {
            return Err(starve(&mut self.starved, &mut self.faults));
        }
        replay(&mut self.safe, &self.log[self.synced..]);
        note(&mut self.log, Call::Sync);
        self.synced = self.log.len();
        Ok(())
    }
}

// Whether a file would grow to 2^63 bytes.
fn is_too_long(at: u64, n: usize) -> bool
    ensures { IsFalse result ↔ (at + n < 2 ^ 63) }
{
    n as u64 >= (1 << 63) - at.min(1 << 63)
}
