// A machine runs a history, by its bound alone.
ghost use Rattle.std.specs.Prelude.{◌≡◌, ◌≤◌, ◌<◌, ◌+◌, IfOk, OnOk};
ghost use Rattle.ox_types.specs.Limits.{count_limit, time_limit};

use crate::spell::spelled;
use ox_machine::{Machine, apply_entry};
use ox_types::{Entry, EntryBody, Octets, Term};
use std::alloc::Global;
use std::test::Fail;

/// Entries from offset 0 on, and what is asked behind them. Commands, replies, queries and answers are as words of `spelled`.
#[derive(Clone, Copy)]
pub struct History {
    /// The time (ms), the command and the reply. Where the machine doesn't read the command there is no reply.
    pub entries: &'static [(u32, &'static str, &'static str)],
    /// The query and the answer.
    pub asked: &'static [(&'static str, &'static str)],
}

fn entry(offset: u64, time: u64, command: Octets) -> Entry
    ensures offset { result.offset ≡ offset }
    ensures time { result.time ≡ time }
{
    Entry {
        term: Term(1),
        offset,
        time,
        body: EntryBody::Command(command),
    }
}

/// The reply to the entry.
fn applied<M: Machine>(alloc: Global, machine: &mut M, entry: &Entry) -> Result<Octets, Fail>
    requires fits { M.meaning.fits entry.now.offset machine.old }
    requires offset { entry.now.offset < count_limit }
    requires time { entry.now.time ≤ time_limit }
    ensures { OnOk result (M.meaning.fits (entry.now.offset + 1) machine.new) }
{
    match apply_entry(alloc, machine, entry)? {
        None => Ok(Octets::new(alloc)),
        Some(reply) => Ok(M::encode_reply(alloc, &reply)?),
    }
}

fn is_spelled(alloc: Global, text: &Octets, words: &str) -> Result<bool, Fail> {
    Ok(text.as_slice() == spelled(alloc, words)?.as_slice())
}

/// The reply to this command, as the entry at this offset and time.
fn entered<M: Machine>(
    alloc: Global,
    machine: &mut M,
    offset: u64,
    time: u32,
    command: Octets,
) -> Result<Octets, Fail>
    requires fits { M.meaning.fits offset machine.old }
    requires few { offset < 1000 }
    ensures { OnOk result (M.meaning.fits (offset + 1) machine.new) }
{
    let entry = entry(offset, time as u64, command);
    applied(alloc, machine, &entry)
}

/// The answer to the query.
fn answered<M: Machine>(
    alloc: Global,
    machine: &M,
    count: u64,
    query: Octets,
) -> Result<Octets, Fail>
    requires fits { M.meaning.fits count machine.now }
    requires few { count < 1000 }
{
    let query = M::decode_query(alloc, query.as_slice())?;
    let answer = machine.ask(&query)?;
    Ok(M::encode_answer(alloc, &answer)?)
}

/// How many entries there are, if each has its reply. A failure names the reply that did not come.
fn enter_all<M: Machine>(
    alloc: Global,
    machine: &mut M,
    entries: &[(u32, &'static str, &'static str)],
) -> Result<u64, Fail>
    requires { M.meaning.fits 0 machine.old }
    ensures fits { IfOk result (λ count. M.meaning.fits count machine.new) }
    ensures few { IfOk result (λ count. count < 1000) }
{
    let mut count = 0;
    for step in entries {
        let told = entered(alloc, machine, count, step.0, spelled(alloc, step.1)?)?;
        if !is_spelled(alloc, &told, step.2)? {
            return Err(Fail::from(step.2));
        }
        count += 1;
        if count == 1000 {
            return Err(Fail::from("too long a history"));
        }
    }
    Ok(count)
}

/// The machine gives the history's replies, and then its answers. A failure names the one that did not come.
pub fn run<M: Machine>(alloc: Global, history: &History) -> Result<(), Fail> {
    let mut machine = M::empty(alloc)?;
    let count = enter_all(alloc, &mut machine, history.entries)?;
    for step in history.asked {
        let told = answered(alloc, &machine, count, spelled(alloc, step.0)?)?;
        if !is_spelled(alloc, &told, step.1)? {
            return Err(Fail::from(step.1));
        }
    }
    Ok(())
}

/// What a machine told of its first timer, which ran out.
#[derive(Drop)]
pub struct Told {
    pub heard: Option<u64>,
    pub expiry: Octets,
    pub is_at_fault: bool,
    pub reply: Octets,
}

/// The command begins a timer, the query asks for it, and then the timer runs out.
pub fn run_out<M: Machine>(alloc: Global, command: &str, query: &str) -> Result<Told, Fail> {
    let mut machine = M::empty(alloc)?;
    let first = entry(0, 0, spelled(alloc, command)?);
    let _begun = applied(alloc, &mut machine, &first)?;
    let timers = machine.timers()?;
    let Some(timer) = timers.get(0) else {
        return Err(Fail::from("no timer"));
    };
    let query = M::decode_query(alloc, spelled(alloc, query)?.as_slice())?;
    let command = M::expiry(alloc, timer.id);
    let is_at_fault = M::faulty(alloc, &command)?.is_some();
    let expiry = M::encode(alloc, &command)?;
    let second = entry(1, 0, expiry.try_clone()?);
    let reply = applied(alloc, &mut machine, &second)?;
    Ok(Told {
        heard: M::heard(&query),
        expiry,
        is_at_fault,
        reply,
    })
}
