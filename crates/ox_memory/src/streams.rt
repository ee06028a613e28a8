// A source and a sink in memory.
ghost use Rattle.std.specs.Prelude.{◌≡◌, ◌≤◌, ◌+◌, ◌++◌, [], length, take, drop, Some, Contains, IsErr, IfOk, OnOk, OnErr, ◌↔◌};
ghost use Rattle.ox_outside.specs.Causes.{HasCause};
ghost use Rattle.ox_outside.specs.Stream.{ReadsWithin, ReadConsumes, WritesSome, WriteAppends};

use crate::counting::{fail, fails};
use ox_outside::{Failed, Sink, Source};
use ox_types::{List, NoMemory};
use std::alloc::Global;

/// A source of the bytes that are given to it. A read gives all that are left, as far as there is room.
#[derive(Drop)]
pub struct MemorySource {
    pub bytes: Vec<u8>,
    pub taken: usize,
    pub calls: u64,
    pub faults: u64,
    pub failing: List<u64>,
    ghost within: { taken ≤ length bytes.items },
}

impl MemorySource {
    /// A source without bytes that never fails.
    pub fn sound(alloc: Global) -> Result<MemorySource, NoMemory>
        ensures empty { IfOk result (λ s. drop s.taken s.bytes.items ≡ []) }
        ensures sound { IfOk result (λ s. s.failing ≡ []) }
        ensures counts { IfOk result (λ s. (s.calls ≡ 0) × (s.faults ≡ 0)) }
    {
        MemorySource::with_failing(alloc, List::new(alloc))
    }

    /// A source without bytes that lets the reads with these numbers fail, counted from 1.
    pub fn with_failing(alloc: Global, calls: List<u64>) -> Result<MemorySource, NoMemory>
        ensures empty { IfOk result (λ s. drop s.taken s.bytes.items ≡ []) }
        ensures failing { IfOk result (λ s. s.failing ≡ calls) }
        ensures counts { IfOk result (λ s. (s.calls ≡ 0) × (s.faults ≡ 0)) }
    {
        Ok(MemorySource {
            bytes: Vec::new(alloc),
            taken: 0,
            calls: 0,
            faults: 0,
            failing: calls,
        })
    }

    /// Adds what later reads give, at the cost of the bytes.
    pub fn give(&mut self, bytes: &[u8]) -> Result<(), NoMemory>
        ensures given { OnOk result (drop self.new.taken self.new.bytes.items ≡ drop self.old.taken self.old.bytes.items ++ bytes.now) }
        ensures same { OnErr result (drop self.new.taken self.new.bytes.items ≡ drop self.old.taken self.old.bytes.items) }
        ensures counts { (self.new.calls ≡ self.old.calls) × (self.new.faults ≡ self.old.faults) }
        ensures failing { self.new.failing ≡ self.old.failing }
    {
        self.bytes.extend_from_slice(bytes)?;
        Ok(())
    }
}

impl Source for MemorySource {
    ghost use Rattle.std.specs.Prelude.{drop, Some};

    ghost stream = { λ s. record { told = Some (drop s.taken s.bytes.items); faults = s.faults } };

    fn read(&mut self, into: &mut [u8]) -> Result<usize, Failed>
        ensures within { ReadsWithin result into.new }
        ensures bytes { ReadConsumes (Some (drop self.old.taken self.old.bytes.items)) (Some (drop self.new.taken self.new.bytes.items)) result into.new }
        ensures cause { HasCause self.old.faults self.new.faults result }
        ensures asked { IsErr result ↔ Contains self.old.failing self.new.calls }
        ensures failing { self.new.failing ≡ self.old.failing }
    {
        if fails(&mut self.calls, self.failing.as_slice()) {
            return Err(fail(&mut self.faults));
        }
        let n = copy_front(into, rest_of(&self.bytes, self.taken));
        self.taken += n;
        Ok(n)
    }
}

/// A sink that keeps what is written.
#[derive(Drop)]
pub struct MemorySink {
    pub bytes: Vec<u8>,
    pub calls: u64,
    pub faults: u64,
    pub failing: List<u64>,
}

impl MemorySink {
    /// A sink without bytes that never fails, but where memory runs out.
    pub fn sound(alloc: Global) -> Result<MemorySink, NoMemory>
        ensures empty { IfOk result (λ s. s.bytes.items ≡ []) }
        ensures sound { IfOk result (λ s. s.failing ≡ []) }
        ensures counts { IfOk result (λ s. (s.calls ≡ 0) × (s.faults ≡ 0)) }
    {
        MemorySink::with_failing(alloc, List::new(alloc))
    }

    /// A sink without bytes that lets the writes with these numbers fail, counted from 1.
    pub fn with_failing(alloc: Global, calls: List<u64>) -> Result<MemorySink, NoMemory>
        ensures empty { IfOk result (λ s. s.bytes.items ≡ []) }
        ensures failing { IfOk result (λ s. s.failing ≡ calls) }
        ensures counts { IfOk result (λ s. (s.calls ≡ 0) × (s.faults ≡ 0)) }
    {
        Ok(MemorySink {
            bytes: Vec::new(alloc),
            calls: 0,
            faults: 0,
            failing: calls,
        })
    }

    /// All that was written.
    pub fn bytes(&self) -> &[u8]
        ensures { result.now ≡ self.now.bytes.items }
    {
        self.bytes.as_slice()
    }
}

impl Sink for MemorySink {
    ghost use Rattle.std.specs.Prelude.{Some};

    ghost stream = { λ s. record { told = Some s.bytes.items; faults = s.faults } };

    fn write(&mut self, bytes: &[u8]) -> Result<usize, Failed>
        ensures some { WritesSome result bytes.now }
        ensures bytes { WriteAppends (Some self.old.bytes.items) (Some self.new.bytes.items) result bytes.now }
        ensures cause { HasCause self.old.faults self.new.faults result }
        ensures whole { IfOk result (λ n. n ≡ length bytes.now) }
        ensures asked { Contains self.old.failing self.new.calls → IsErr result }
        ensures failing { self.new.failing ≡ self.old.failing }
    {
        if fails(&mut self.calls, self.failing.as_slice()) {
            return Err(fail(&mut self.faults));
        }
        match self.bytes.extend_from_slice(bytes) {
            Ok(()) => Ok(bytes.len()),
            Err(_) => Err(fail(&mut self.faults)),
        }
    }
}

/// Copies the front of what is there, as much as there is room for.
pub fn copy_front(into: &mut [u8], from: &[u8]) -> usize
    ensures count { result ≡ length (take (length into.old) from.now) }
    ensures bytes { into.new ≡ take (length into.old) from.now ++ drop result into.old }
{
    let n = if into.len() < from.len() {
        into.len()
    } else {
        from.len()
    };
    into[..n].copy_from_slice(&from[..n]);
    n
}

/// What stands from a place on.
pub fn rest_of(bytes: &[u8], at: usize) -> &[u8]
    ensures { result.now ≡ drop at bytes.now }
{
    if bytes.len() < at { &[] } else { &bytes[at..] }
}
