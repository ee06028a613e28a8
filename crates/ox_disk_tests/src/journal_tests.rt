// The journal.
use ox_journal::{Journal, JournalFault};
use ox_memory::MemoryDisk;
use ox_outside::Disk;
use ox_types::{List, Octets};
use std::alloc::Global;
use std::test::Fail;

// The first half of a journal with one record of 13 bytes.
const FILE: [u8; 29] = [
    1, 0x4f, 0x58, 0x49, 0x41, 0x4a, 0x52, 0x4e, 0x31, 0, 1, 0, 0, 0, 13, 0, 0, 0, 1, 0, 0, 0, 0,
    0, 0, 0, 0, 1, 0,
];

fn disk_of(alloc: Global, bytes: &[u8]) -> Result<Option<MemoryDisk>, Fail> {
    let mut disk = MemoryDisk::sound(alloc)?;
    if disk.write_at(0, bytes).is_err() || disk.sync().is_err() {
        return Ok(None);
    }
    Ok(Some(disk))
}

// Why a pair with this first half isn't read.
fn fault_of(alloc: Global, bytes: &[u8]) -> Result<Option<JournalFault>, Fail> {
    let Some(first) = disk_of(alloc, bytes)? else {
        return Ok(None);
    };
    let second = MemoryDisk::sound(alloc)?;
    match Journal::recover(alloc, first, second) {
        Err((fault, _, _)) => Ok(Some(fault)),
        Ok(mut journal) => Ok(journal.next_payload().err()),
    }
}

fn expected(length: usize) -> JournalFault {
    let at = match length {
        0 | 1 => return JournalFault::Unformatted,
        2..=8 => 1,
        9 => 9,
        _ => 10,
    };
    JournalFault::Damaged { half: 0, at }
}

#[test]
fn a_file_that_is_cut(rt: HostRuntime) -> Result<(), Fail> {
    for length in 0..29 {
        assert!(rt; fault_of(rt.alloc(), &FILE[..length])? == Some(expected(length)));
    }
    assert!(rt; fault_of(rt.alloc(), &FILE)?.is_none());
    Ok(())
}

// A journal of one record, on disks of which the first fails at this call.
fn appended(alloc: Global, failing: u64) -> Result<Option<(MemoryDisk, MemoryDisk)>, Fail> {
    let mut calls = List::new(alloc);
    calls.push(failing)?;
    let first = MemoryDisk::with_failing(alloc, calls)?;
    let second = MemoryDisk::sound(alloc)?;
    let Ok(mut journal) = Journal::create(alloc, first, second) else {
        return Ok(None);
    };
    let _ = journal.append(b"ab");
    Ok(Some(journal.close()))
}

fn first_record(alloc: Global, first: MemoryDisk, second: MemoryDisk) -> Option<Octets> {
    let Ok(mut journal) = Journal::recover(alloc, first, second) else {
        return None;
    };
    match journal.next_payload() {
        Ok(given) => given,
        Err(_) => None,
    }
}

fn stands(record: &Option<Octets>, bytes: &[u8]) -> bool {
    match record {
        Some(record) => record.as_slice() == bytes,
        None => false,
    }
}

// A journal takes seven calls to make, and an append the four after them.
#[test]
fn an_append_whose_calls_fail(rt: HostRuntime) -> Result<(), Fail> {
    for failing in 8..12 {
        let (first, second) = appended(rt.alloc(), failing)?.ok_or("a journal")?;
        let record = first_record(rt.alloc(), first, second);
        assert!(rt; stands(&record, b"ab") == (failing >= 10));
    }
    Ok(())
}

fn rewritten(alloc: Global) -> Result<Option<(MemoryDisk, MemoryDisk)>, Fail> {
    let first = MemoryDisk::sound(alloc)?;
    let second = MemoryDisk::sound(alloc)?;
    let Ok(mut journal) = Journal::create(alloc, first, second) else {
        return Ok(None);
    };
    let Ok(()) = journal.prepare() else {
        return Ok(None);
    };
    let Ok(()) = journal.fill_start(3) else {
        return Ok(None);
    };
    let Ok(()) = journal.fill(b"xyz") else {
        return Ok(None);
    };
    let Ok(()) = journal.switch() else {
        return Ok(None);
    };
    Ok(Some(journal.close()))
}

#[test]
fn a_rewrite(rt: HostRuntime) -> Result<(), Fail> {
    let (first, second) = rewritten(rt.alloc())?.ok_or("a rewrite")?;
    assert!(rt; stands(&first_record(rt.alloc(), first, second), b"xyz"));
    Ok(())
}
