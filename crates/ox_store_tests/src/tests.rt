use crate::cases::{Comes, Kind, RULES, TEXTS};
use crate::histories::{REGISTER, SHARD};
use crate::run::{run, run_out};
use crate::spell::spelled;
use ox_index::Index;
use ox_machine::{Machine, Register};
use ox_ops::{
    Hi, IndexEntry, KeyRange, Lo, MachineFault, check, decode_answer, decode_command, decode_query,
    decode_reply, encode_answer, encode_command, encode_query, encode_reply,
};
use ox_session::Sessions;
use ox_shard::ShardMachine;
use ox_timer::{Running, Timer, Timers};
use ox_types::{Key, NoMemory, Octets};
use std::alloc::Global;
use std::test::Fail;

/// What is written for what was read.
fn again(alloc: Global, kind: Kind, bytes: &[u8]) -> Result<Octets, MachineFault> {
    let text = match kind {
        Kind::Command => encode_command(alloc, &decode_command(alloc, bytes)?),
        Kind::Query => encode_query(alloc, &decode_query(alloc, bytes)?),
        Kind::Reply => encode_reply(alloc, &decode_reply(alloc, bytes)?),
        Kind::Answer => encode_answer(alloc, &decode_answer(alloc, bytes)?),
        Kind::Register => Register::encode(alloc, &Register::decode(alloc, bytes)?),
    };
    text.map_err(|_| MachineFault::NoMemory)
}

fn read_again(alloc: Global, kind: Kind, bytes: &[u8]) -> Result<Comes, Fail> {
    match again(alloc, kind, bytes) {
        Ok(text) => {
            if text.as_slice() == bytes {
                return Ok(Comes::Again);
            }
            Err(Fail::from("it is written as other bytes"))
        }
        Err(MachineFault::BadBytes { at }) => Ok(Comes::Bad(at)),
        Err(MachineFault::NoMemory) => Err(Fail::from("no memory")),
    }
}

/// A failure names the bytes that come to something else.
#[test]
fn bytes_are_written_again_or_refused(rt: HostRuntime) -> Result<(), Fail> {
    for (kind, words, comes) in TEXTS {
        let bytes = spelled(rt.alloc(), words)?;
        if read_again(rt.alloc(), kind, bytes.as_slice())? != comes {
            return Err(Fail::from(words));
        }
    }
    Ok(())
}

#[test]
fn the_first_fault_counts(rt: HostRuntime) -> Result<(), Fail> {
    for (words, rule) in RULES {
        let bytes = spelled(rt.alloc(), words)?;
        let command = decode_command(rt.alloc(), bytes.as_slice())?;
        let fault = check(rt.alloc(), &command)?;
        assert_eq!(rt; fault.map(|bad| bad.rule), rule, "{words}");
    }
    Ok(())
}

#[test]
fn machines_answer_as_their_histories_say(rt: HostRuntime) -> Result<(), Fail> {
    run::<Register>(rt.alloc(), &REGISTER)?;
    for history in SHARD {
        run::<ShardMachine>(rt.alloc(), &history)?;
    }
    Ok(())
}

#[test]
fn a_session_of_a_machine_runs_out(rt: HostRuntime) -> Result<(), Fail> {
    let told = run_out::<ShardMachine>(rt.alloc(), "01 .1000", "04 .0")?;
    assert_eq!(rt; told.heard, Some(0));
    assert!(rt; told.is_at_fault);
    let expected = spelled(rt.alloc(), "03 .0")?;
    assert_eq!(rt; told.expiry.as_slice(), expected.as_slice());
    let expected = spelled(rt.alloc(), ":1 09 .0")?;
    assert_eq!(rt; told.reply.as_slice(), expected.as_slice());
    Ok(())
}

fn key(alloc: Global, text: &str) -> Result<Key, Fail> {
    Ok(Key::try_new(Vec::from_slice(alloc, text.as_bytes())?)?)
}

#[test]
fn an_index_lists_its_keys(rt: HostRuntime) -> Result<(), Fail> {
    let alloc = rt.alloc();
    let entry = IndexEntry {
        name: Octets::from_slice(alloc, b"owner")?,
        key: key(alloc, "b1")?,
    };
    let mut index = Index::empty(alloc)?;
    index.add(&entry, &key(alloc, "a")?)?;
    let range = KeyRange {
        lo: Lo::Start,
        hi: Hi::End,
    };
    assert_eq!(rt; index.list(b"owner", &range)?.len(), 1);
    Ok(())
}

#[test]
fn a_session_has_its_keys(rt: HostRuntime) -> Result<(), Fail> {
    let mut sessions = Sessions::empty(rt.alloc())?;
    sessions.open_session(3, 5000)?;
    if sessions.live(3) {
        sessions.join(3, &key(rt.alloc(), "a")?)?;
    }
    assert_eq!(rt; sessions.members(3)?.len(), 1);
    Ok(())
}

fn running(id: u64, timeout: u64, since: u64, expired: bool) -> Running {
    Running {
        id,
        timeout,
        since,
        expired,
    }
}

/// Two timers that run since 10 and one since 20.
fn three(alloc: Global) -> Result<Timers, NoMemory> {
    let two = [Timer { id: 2, timeout: 5 }, Timer { id: 7, timeout: 30 }];
    let mut timers = Timers::start(alloc, &two, 10)?;
    let all = [
        Timer { id: 2, timeout: 5 },
        Timer { id: 4, timeout: 1 },
        Timer { id: 7, timeout: 30 },
    ];
    timers.retime(&all, 20)?;
    Ok(timers)
}

#[test]
fn timers_run_out(rt: HostRuntime) -> Result<(), Fail> {
    let mut timers = three(rt.alloc())?;
    assert_eq!(rt; timers.due(14), None);
    assert_eq!(rt; timers.due(15), Some(2));
    timers.hear(2, 16);
    assert_eq!(rt; timers.due(20), None);
    assert_eq!(rt; timers.due(21), Some(2));
    timers.note_expired(2);
    assert_eq!(rt; timers.due(21), Some(4));
    let expected = [
        running(2, 5, 16, true),
        running(4, 1, 20, false),
        running(7, 30, 10, false),
    ];
    assert_eq!(rt; timers.as_slice(), expected.as_slice());
    Ok(())
}
