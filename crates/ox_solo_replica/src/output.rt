use ox_types::{Head, KeptAs, List, NoMemory, Peer};
use ox_wire::{Body, Outcome};
use thiserror::Error;

/// A message that leaves the replica.
#[derive(Debug, Drop)]
pub struct Outgoing {
    pub to: Peer,
    pub body: Body,
}

/// The answer to the client's request with this tag.
#[derive(Debug, Drop)]
pub struct Answered {
    pub tag: u64,
    pub outcome: Outcome,
}

/// What a step gave. All of `kept` is durable before any of it is told.
#[derive(Debug, Drop)]
pub struct Output {
    pub kept: List<KeptAs>,
    pub sends: List<Outgoing>,
    pub replies: List<Answered>,
}

/// What became of a step that is cut inside a call of the disks.
#[derive(Debug, Drop)]
pub enum Cut {
    /// The step makes fewer calls, and is whole.
    Whole(Output),
    /// The replica is down. Its disks stand for the state behind what was kept, with this head.
    Down { kept: List<KeptAs>, head: Head },
}

/// Why a step wasn't done. The replica is closed then, and answers the same from then on.
#[derive(Clone, Copy, Debug, Error, PartialEq, Eq)]
pub enum HandleFault {
    #[error("a disk failed")]
    DiskFault,
    #[error("memory ran out")]
    NoMemory,
}

impl From<NoMemory> for HandleFault {
    ghost use Rattle.std.specs.Prelude.{◌≡◌};
    ghost use Rattle.ox_solo_replica.specs.declared.output.HandleFault.TheVariants as fault;

    ghost from_gives = { λ _ e. e ≡ fault.NoMemory };

    fn from(_e: NoMemory) -> HandleFault {
        HandleFault::NoMemory
    }
}
