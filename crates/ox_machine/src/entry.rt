//! The entries of a log at a machine.
ghost use Rattle.std.specs.Prelude.{◌≡◌, ◌≤◌, ◌<◌, ◌+◌, IsTrue, IfOk, OnOk, length};
ghost use Rattle.std.specs.Option.{ForSome};
ghost use Rattle.ox_types.specs.Limits.{count_limit, time_limit};
ghost use Rattle.ox_machine.specs.Meaning.{may_stand, reads};
ghost use Rattle.ox_machine.specs.Laws.{command_limit};
ghost use Rattle.ox_machine.specs.Store.{command_in, command_of, after_command, after, reply_to_command, reply_to, id_of};

use crate::machine::Machine;
use ox_types::{Bad, Entry, EntryBody, EntryId, MachineFault, NoMemory, Rule};
use std::alloc::Global;

/// Whether a log may hold a command with this fault.
fn is_allowed(fault: Option<Bad>) -> bool
    ensures { result ≡ may_stand fault }
{
    match fault {
        None => true,
        Some(bad) => bad.rule == Rule::Expire,
    }
}

/// The command in these bytes of a log, or None where the machine doesn't read one: the bytes aren't in its grammar, or the
/// command has a fault other than to be an expiry. It costs the decoding and the tests of a command.
pub fn read_command<M: Machine>(alloc: Global, bytes: &[u8]) -> Result<Option<M::Command>, NoMemory>
    ensures command { IfOk result (λ found. found ≡ command_in M.meaning bytes.now) }
    // The machine may apply it, and it isn't long.
    ensures lawful { IfOk result (λ found. ForSome found (λ c. IsTrue (M.meaning.commands.is_lawful c))) }
    ensures read { IfOk result (λ found. ForSome found (λ c. IsTrue (reads M.meaning c))) }
    ensures size { IfOk result (λ found. ForSome found (λ c. length bytes.now ≤ command_limit)) }
{
    match M::decode(alloc, bytes) {
        Ok(command) => {
            let fault = M::faulty(alloc, &command)?;
            if is_allowed(fault) {
                Ok(Some(command))
            } else {
                Ok(None)
            }
        }
        Err(MachineFault::BadBytes { .. }) => Ok(None),
        Err(MachineFault::NoMemory) => Err(NoMemory),
    }
}

fn command_at<M: Machine>(alloc: Global, body: &EntryBody) -> Result<Option<M::Command>, NoMemory>
    ensures command { IfOk result (λ found. found ≡ command_of M.meaning body.now) }
    ensures lawful { IfOk result (λ found. ForSome found (λ c. IsTrue (M.meaning.commands.is_lawful c))) }
    ensures read { IfOk result (λ found. ForSome found (λ c. IsTrue (reads M.meaning c))) }
{
    match body {
        EntryBody::Pass => Ok(None),
        EntryBody::Command(bytes) => Ok(read_command::<M>(alloc, bytes.as_slice())?),
    }
}

/// Applies an entry, and gives the reply: none for a Pass, nor for bytes that the machine doesn't read, which change
/// nothing (docs/REPLICATION.md, "Machines"). It costs `read_command` and the machine's `apply`. After an `Err` the machine
/// is of no use: drop it.
pub fn apply_entry<M: Machine>(
    alloc: Global,
    machine: &mut M,
    entry: &Entry,
) -> Result<Option<M::Reply>, NoMemory>
    requires fits { M.meaning.fits entry.now.offset machine.old }
    requires offset { entry.now.offset < count_limit }
    requires time { entry.now.time ≤ time_limit }
    ensures state { OnOk result (machine.new ≡ after M.meaning machine.old entry.now) }
    ensures reply { IfOk result (λ reply. reply ≡ reply_to M.meaning machine.old entry.now) }
    ensures fits { OnOk result (M.meaning.fits (entry.now.offset + 1) machine.new) }
    // The reply can be written.
    ensures lawful { IfOk result (λ reply. ForSome reply (λ r. IsTrue (M.meaning.replies.is_lawful r))) }
{
    match command_at::<M>(alloc, &entry.body)? {
        None => Ok(None),
        Some(command) => {
            let id = EntryId {
                term: entry.term,
                offset: entry.offset,
            };
            let reply = machine.apply(id, entry.time, &command)?;
            Ok(Some(reply))
        }
    }
}
