// The write-ahead log.
ghost use Rattle.std.specs.Prelude.{◌≡◌, ◌≢◌, IfOk, OnOk};
ghost use Rattle.ox_types.specs.Durable.{blank, folded};
ghost use Rattle.ox_types.specs.declared.durable.Action.TheVariants as action_is;
ghost use Rattle.ox_journal.specs.declared.state.State.TheVariants.{Broken};
ghost use Rattle.ox_memory.specs.Log.{shown};
ghost use Rattle.ox_wal.specs.Files.{Keeps};
ghost use Rattle.ox_wal.specs.State.{state_of};

use ox_memory::{Image, MemoryDisk};
use ox_outside::Disk;
use ox_types::{Action, Entry, EntryBody, List, Term};
use ox_wal::{CommitFault, Wal, WalFault};
use std::alloc::Global;
use std::test::Fail;

// The first half of a journal without a record, and behind the batch of one action, Term 1.
const CREATED: [u8; 11] = [1, 0x4f, 0x58, 0x49, 0x41, 0x4a, 0x52, 0x4e, 0x31, 0, 0];

const TERM_1: [u8; 29] = [
    1, 0x4f, 0x58, 0x49, 0x41, 0x4a, 0x52, 0x4e, 0x31, 0, 1, 0, 0, 0, 13, 0, 0, 0, 1, 0, 0, 0, 0,
    0, 0, 0, 0, 1, 0,
];

// An empty log on two disks, of which the first fails at this call.
fn opened(alloc: Global, failing: u64) -> Result<Wal<MemoryDisk>, Fail>
    ensures blank { IfOk result (λ w. state_of w.log ≡ blank) }
    ensures kept { IfOk result (λ w. Keeps (shown w.journal.live.log.items w.journal.live.calls) (shown w.journal.spare.log.items w.journal.spare.calls) w.journal.round w.journal.end (state_of w.log)) }
{
    let mut calls = List::new(alloc);
    calls.push(failing)?;
    let first = MemoryDisk::with_failing(alloc, calls)?;
    let second = MemoryDisk::sound(alloc)?;
    match Wal::recover(alloc, first, second, 8) {
        Ok(wal) => Ok(wal),
        Err((fault, _, _)) => Err(Fail::from(fault)),
    }
}

// Term 1 begins.
fn begin(wal: &mut Wal<MemoryDisk>) -> Result<(), CommitFault>
    requires blank { state_of wal.old.log ≡ blank }
    requires kept { Keeps (shown wal.old.journal.live.log.items wal.old.journal.live.calls) (shown wal.old.journal.spare.log.items wal.old.journal.spare.calls) wal.old.journal.round wal.old.journal.end (state_of wal.old.log) }
    ensures state { OnOk result (state_of wal.new.log ≡ folded blank (action_is.Term 1)) }
    ensures kept { OnOk result (Keeps (shown wal.new.journal.live.log.items wal.new.journal.live.calls) (shown wal.new.journal.spare.log.items wal.new.journal.spare.calls) wal.new.journal.round wal.new.journal.end (state_of wal.new.log)) }
{
    wal.commit(&[Action::Term(Term(1))])
}

// It leads, with a first entry.
fn lead(alloc: Global, wal: &mut Wal<MemoryDisk>) -> Result<(), CommitFault>
    requires state { state_of wal.old.log ≡ folded blank (action_is.Term 1) }
    requires kept { Keeps (shown wal.old.journal.live.log.items wal.old.journal.live.calls) (shown wal.old.journal.spare.log.items wal.old.journal.spare.calls) wal.old.journal.round wal.old.journal.end (state_of wal.old.log) }
{
    let mut entries = List::new(alloc);
    entries.push(Entry {
        term: Term(1),
        offset: 0,
        time: 5,
        body: EntryBody::Pass,
    })?;
    wal.commit(&[Action::Lead, Action::Append { entries }])
}

// Whether a disk's file is this.
fn is_file(disk: &mut MemoryDisk, file: &[u8]) -> bool {
    let mut bytes = [0u8; 64];
    match disk.read_at(0, &mut bytes) {
        Ok(n) => &bytes[..n] == file,
        Err(_) => false,
    }
}

#[test]
fn a_blank_pair_becomes_an_empty_log(rt: HostRuntime) -> Result<(), Fail> {
    let wal = opened(rt.alloc(), 0)?;
    let (mut first, mut second) = wal.close();
    assert!(rt; is_file(&mut first, &CREATED));
    assert!(rt; is_file(&mut second, &[]));
    Ok(())
}

#[test]
fn a_batch_is_one_record(rt: HostRuntime) -> Result<(), Fail> {
    let mut wal = opened(rt.alloc(), 0)?;
    begin(&mut wal)?;
    let (mut first, _) = wal.close();
    assert!(rt; is_file(&mut first, &TERM_1));
    Ok(())
}

// The disks of a log that leads term 1, with a first entry.
fn led(alloc: Global) -> Result<(MemoryDisk, MemoryDisk), Fail> {
    let mut wal = opened(alloc, 0)?;
    begin(&mut wal)?;
    lead(alloc, &mut wal)?;
    Ok(wal.close())
}

#[test]
fn a_small_history(rt: HostRuntime) -> Result<(), Fail> {
    let (first, second) = led(rt.alloc())?;
    let wal = match Wal::recover(rt.alloc(), first, second, 8) {
        Ok(wal) => wal,
        Err((fault, _, _)) => return Err(Fail::from(fault)),
    };
    assert_eq!(rt; wal.head().count, 1);
    assert_eq!(rt; wal.table()?.runs.len(), 1);
    assert_eq!(rt; wal.entry(0)?.ok_or("an entry")?.time, 5);
    assert_eq!(rt; wal.blocks_free(), 7);
    Ok(())
}

#[test]
fn more_entries_than_blocks(rt: HostRuntime) -> Result<(), Fail> {
    let (first, second) = led(rt.alloc())?;
    match Wal::recover(rt.alloc(), first, second, 0) {
        Ok(_) => assert!(rt; false),
        Err((fault, _, _)) => assert_eq!(rt; fault, WalFault::TooFewBlocks { need: 1, have: 0 }),
    }
    Ok(())
}

// The term that is found after a crash with this image, where this call of the first half failed.
fn term_after(alloc: Global, failing: u64, image: Image) -> Result<Term, Fail> {
    let mut wal = opened(alloc, failing)?;
    let _ = begin(&mut wal);
    let (mut first, mut second) = wal.close();
    first.crash(image);
    second.crash(image);
    match Wal::recover(alloc, first, second, 8) {
        Ok(wal) => Ok(wal.term()),
        Err((fault, _, _)) => Err(Fail::from(fault)),
    }
}

// The pair is made by nine calls of the first half, and a batch takes the four behind them.
#[test]
fn a_batch_is_there_whole_or_not_at_all(rt: HostRuntime) -> Result<(), Fail> {
    let cases = [
        (10, Image::NoneKept, Term(0)),
        (11, Image::NoneKept, Term(0)),
        (12, Image::NoneKept, Term(0)),
        (11, Image::Torn, Term(0)),
        (13, Image::AllKept, Term(1)),
        (0, Image::NoneKept, Term(1)),
    ];
    for (failing, image, term) in cases {
        assert_eq!(rt; term_after(rt.alloc(), failing, image)?, term);
    }
    Ok(())
}
