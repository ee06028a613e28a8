// The calls that changed a disk's file.
ghost use Rattle.std.specs.Prelude.{◌≡◌, ◌<◌, ◌≤◌, ◌++◌, ◌∷◌, [], length, vec_capacity};

use ox_types::Octets;

/// What a crash leaves of the writes since the last sync: none, all, or in each range of a write only bytes that hold 1, up to the longest length.
#[derive(Clone, Copy, Debug, PartialEq, Eq)]
pub enum Image {
    NoneKept,
    AllKept,
    Torn,
}

/// A call that changed a disk's file.
#[derive(Debug, Drop)]
pub enum Call {
    Write { at: u64, bytes: Octets },
    Sync,
    Crash(Image),
}

/// Adds a call to a log that has room for it.
pub fn note(log: &mut Vec<Call>, call: Call)
    requires { length log.old.items < vec_capacity log.old }
    ensures items { log.new.items ≡ log.old.items ++ call ∷ [] }
    ensures capacity { vec_capacity log.old ≤ vec_capacity log.new }
{
    let _ = log.push(call);
}
