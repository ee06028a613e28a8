// The history of a shard, an entry a line.
ghost use Rattle.std.specs.Prelude.{◌≡◌, ◌++◌, ◌<◌, OnOk, IfSome, codes, length, slice_get};
ghost use Rattle.std.specs.List.{flat_map};
ghost use Rattle.ox_bytes.specs.Texts.{value_in};
ghost use Rattle.ox_ops.specs.Forms.{command};
ghost use Rattle.ox_wire.specs.Origins.{AreInStep};
ghost use Rattle.ox_report.specs.History.{cause_of, by_arrival, command_text, command_told, what_text, entry_text, entry_line, history_text};

use ox_ops::{ShardCommand, decode_command};
use ox_text::{add_count, add_counts, add_field};
use ox_types::{Entry, EntryBody, MachineFault, NoMemory, Octets};
use ox_wire::{Cause, Origin};
use std::alloc::Global;

/// A word, and the arrival that an entry comes from.
fn add_by_arrival(text: &mut Octets, word: &[u8], cause: Cause) -> Result<(), NoMemory>
    ensures { OnOk result (text.new ≡ text.old ++ by_arrival word.now cause) }
{
    match cause {
        Cause::Opening => text.extend(word),
        Cause::Arrival(arrival) => add_count(text, word, arrival),
        Cause::Expiry(_) => text.extend(word),
    }
}

fn add_command(text: &mut Octets, command: &ShardCommand, cause: Cause) -> Result<(), NoMemory>
    ensures { OnOk result (text.new ≡ text.old ++ command_text command.now cause) }
{
    match command {
        ShardCommand::Write(_) => add_by_arrival(text, b"write", cause),
        ShardCommand::Open { .. } => add_by_arrival(text, b"open", cause),
        ShardCommand::Close { .. } => add_by_arrival(text, b"close", cause),
        ShardCommand::Expire { session } => add_count(text, b"expire", *session),
    }
}

/// The command that the bytes spell, and nothing where they spell none.
fn add_command_in(
    alloc: Global,
    text: &mut Octets,
    bytes: &[u8],
    cause: Cause,
) -> Result<(), NoMemory>
    ensures { OnOk result (text.new ≡ text.old ++ command_told (value_in command bytes.now) cause) }
{
    match decode_command(alloc, bytes) {
        Ok(command) => add_command(text, &command, cause),
        Err(MachineFault::NoMemory) => Err(NoMemory),
        Err(MachineFault::BadBytes { .. }) => Ok(()),
    }
}

/// What an entry says.
fn add_what(
    alloc: Global,
    text: &mut Octets,
    body: &EntryBody,
    cause: Cause,
) -> Result<(), NoMemory>
    ensures { OnOk result (text.new ≡ text.old ++ what_text body.now cause) }
{
    match body {
        EntryBody::Pass => text.extend(b"pass"),
        EntryBody::Command(bytes) => add_command_in(alloc, text, bytes.as_slice(), cause),
    }
}

/// The line of an entry: its offset, its term, its time in ms, and what it says, with the arrival that it comes from, or
/// the session of an expiry. Where memory runs out, a part of it may be there.
pub fn add_entry(
    alloc: Global,
    text: &mut Octets,
    entry: &Entry,
    cause: Cause,
) -> Result<(), NoMemory>
    ensures { OnOk result (text.new ≡ text.old ++ entry_text entry.now cause) }
{
    add_counts(text, b" ", entry.offset, entry.term.0)?;
    add_field(text, entry.time)?;
    text.extend(b" ")?;
    add_what(alloc, text, &entry.body, cause)?;
    text.extend(b"\n")
}

/// Where the entry at a place of shard 0 comes from: its origin stands at the same place.
fn cause_at(history: &[Entry], origins: &[Origin], at: usize) -> Cause
    requires in_step { AreInStep history.now origins.now }
    requires within { at < length history.now }
    ensures { IfSome (slice_get history.now at) (λ e. result ≡ cause_of 0 e origins.now) }
{
    let origin = &origins[at];
    origin.cause
}

/// The entries of shard 0, each with its origin, which stands at the same place.
fn add_entries(
    alloc: Global,
    text: &mut Octets,
    history: &[Entry],
    origins: &[Origin],
) -> Result<(), NoMemory>
    requires { AreInStep history.now origins.now }
    ensures { OnOk result (text.new ≡ text.old ++ flat_map (entry_line origins.now 0) history.now) }
{
    for (at, entry) in history.iter().enumerate() {
        add_entry(alloc, text, entry, cause_at(history, origins, at))?;
    }
    Ok(())
}

/// The history of shard 0, a line for their number and one for each entry, with the origin that stands at its place. It
/// costs the text, and each command once.
pub fn add_history(
    alloc: Global,
    text: &mut Octets,
    history: &[Entry],
    origins: &[Origin],
) -> Result<(), NoMemory>
    requires { AreInStep history.now origins.now }
    ensures { OnOk result (text.new ≡ text.old ++ history_text origins.now 0 history.now) }
{
    add_counts(text, b"history", 0, history.len() as u64)?;
    text.extend(b"\n")?;
    add_entries(alloc, text, history, origins)
}
