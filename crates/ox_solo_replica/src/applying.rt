//! Entries that a replica applies to its machine, and the clients that wait for them.
ghost use Rattle.std.specs.Prelude.{◌≡◌, ◌≤◌, ◌+◌, ◌^◌, ◌++◌, ◌∷◌, [], ℕ, true, length, is_some, IsTrue, IfOk, OnOk};
ghost use Rattle.std.specs.List.{list_all};
ghost use Rattle.std.specs.Option.{ForSome};
ghost use Rattle.ox_types.specs.Durable.{may_follow};
ghost use Rattle.ox_bytes.specs.Form.{IsBytes};
ghost use Rattle.ox_machine.specs.Store.{IsBody, RunsFrom, after, command_in, reply_to, state_from};
ghost use Rattle.ox_solo_replica.specs.Advance.{waits_at, still_pending, ack_of, acks_of, is_read, is_entry};

use crate::leading::Pending;
use crate::output::Answered;
use ox_machine::{Machine, apply_entry, read_command};
use ox_types::{Entry, EntryBody, List, NoMemory, Term};
use ox_wire::Outcome;
use std::alloc::Global;
use std::mem::replace;

/// The latest time of an entry (ms).
pub const TIME_LIMIT: u64 = 9_007_199_254_740_992;

/// The tag of the client that waits for this offset. It goes once through the clients.
fn tag_at(pending: &[Pending], offset: u64) -> Option<u64>
    ensures { result ≡ waits_at offset pending.now }
{
    for client in pending {
        if client.offset == offset {
            return Some(client.tag);
        }
    }
    None
}

/// The client with this tag, if there is one, is told the reply to its write, which stands at this offset.
fn acknowledge<M: Machine>(
    alloc: Global,
    term: Term,
    offset: u64,
    tag: Option<u64>,
    reply: Option<M::Reply>,
    replies: &mut List<Answered>,
) -> Result<(), NoMemory>
    requires { ForSome reply (λ r. IsTrue (M.meaning.replies.is_lawful r)) }
    ensures { OnOk result (replies.new ≡ replies.old ++ ack_of M.meaning term offset tag reply) }
{
    let Some(tag) = tag else {
        return Ok(());
    };
    let Some(reply) = reply else {
        return Ok(());
    };
    let reply = M::encode_reply(alloc, &reply)?;
    let outcome = Outcome::Ack {
        term,
        offset,
        reply,
    };
    replies.push(Answered { tag, outcome })?;
    Ok(())
}

/// Applies one entry, and acknowledges it to the client that waits for it.
fn apply_one<M: Machine>(
    alloc: Global,
    term: Term,
    pending: &[Pending],
    entry: &Entry,
    machine: &mut M,
    replies: &mut List<Answered>,
) -> Result<(), NoMemory>
    requires runs { RunsFrom entry.now.offset (entry.now ∷ []) }
    requires fits { M.meaning.fits entry.now.offset machine.old }
    ensures state { OnOk result (machine.new ≡ after M.meaning machine.old entry.now) }
    ensures fits { OnOk result (M.meaning.fits (entry.now.offset + 1) machine.new) }
    ensures told { OnOk result (replies.new ≡ replies.old ++ ack_of M.meaning term entry.now.offset (waits_at entry.now.offset pending.now) (reply_to M.meaning machine.old entry.now)) }
{
    let reply = apply_entry::<M>(alloc, machine, entry)?;
    let tag = tag_at(pending, entry.offset);
    acknowledge::<M>(alloc, term, entry.offset, tag, reply, replies)
}

/// Applies entries in their order to a machine that applied those before them, and acknowledges each to the client that waits
/// for it. For each entry it costs its decoding, the machine's `apply`, and a pass over the clients that wait. After an `Err`
/// the machine is of no use.
pub fn apply_entries<M: Machine>(
    alloc: Global,
    term: Term,
    from: u64,
    pending: &[Pending],
    entries: &[Entry],
    machine: &mut M,
    replies: &mut List<Answered>,
) -> Result<(), NoMemory>
    requires runs { RunsFrom from entries.now }
    requires fits { M.meaning.fits from machine.old }
    ensures state { OnOk result (machine.new ≡ state_from M.meaning machine.old entries.now) }
    ensures fits { OnOk result (M.meaning.fits (from + length entries.now) machine.new) }
    ensures replies { OnOk result (replies.new ≡ replies.old ++ acks_of M.meaning term pending.now machine.old entries.now) }
{
    for entry in entries {
        apply_one::<M>(alloc, term, pending, entry, machine, replies)?;
    }
    Ok(())
}

/// Lets the clients go whose writes are among so many committed entries. It takes no memory.
pub fn drop_settled(alloc: Global, pending: &mut List<Pending>, commit: u64)
    ensures { pending.new ≡ still_pending commit pending.old }
{
    let clients = replace(pending, List::new(alloc));
    let mut waiting = clients.into_vec();
    waiting.retain(|client| commit <= client.offset);
    *pending = List::from_vec(waiting);
}

/// Whether the bytes are a command that the machine reads.
fn is_command<M: Machine>(alloc: Global, bytes: &[u8]) -> Result<bool, NoMemory>
    ensures exact { IfOk result (λ b. b ≡ is_some (command_in M.meaning bytes.now)) }
    ensures octets { IsBytes bytes.now }
{
    let command = read_command::<M>(alloc, bytes)?;
    Ok(command.is_some())
}

/// Whether the entry is a Pass or a command that the machine reads.
fn says_command<M: Machine>(alloc: Global, body: &EntryBody) -> Result<bool, NoMemory>
    ensures exact { IfOk result (λ b. b ≡ is_read M.meaning body.now) }
    ensures bytes { IsBody body.now }
{
    match body {
        EntryBody::Pass => Ok(true),
        EntryBody::Command(bytes) => is_command::<M>(alloc, bytes.as_slice()),
    }
}

/// Whether the machine reads each command of these entries, and their times are within the clock's limit. It costs their
/// decoding.
pub fn are_read<M: Machine>(alloc: Global, entries: &[Entry]) -> Result<bool, NoMemory>
    ensures exact { IfOk result (λ b. b ≡ list_all (is_entry M.meaning) entries.now) }
    // Where they also stand in the order of a log, they may be applied.
    ensures runs { IfOk result (λ b. IsTrue b → (top term from : ℕ) → may_follow top term from entries.now ≡ true → from + length entries.now ≤ 2 ^ 53 → RunsFrom from entries.now) }
{
    for entry in entries {
        if entry.time > TIME_LIMIT || !says_command::<M>(alloc, &entry.body)? {
            return Ok(false);
        }
    }
    Ok(true)
}
