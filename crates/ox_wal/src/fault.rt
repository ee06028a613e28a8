use ox_types::NoMemory;
use std::alloc::AllocError;
use thiserror::Error;

/// Why a log isn't recovered. The places are those of docs/FORMATS.md.
#[derive(Clone, Copy, Debug, Error, PartialEq, Eq)]
pub enum WalFault {
    /// What stands at this place of this half is no log's. The call changed nothing.
    #[error("half {half} is damaged at {at}")]
    Damaged { half: u8, at: u64 },
    /// The entries need so many blocks, and there are fewer. The call changed nothing.
    #[error("the entries need {need} blocks of {have}")]
    TooFewBlocks { need: u64, have: u64 },
    /// A disk failed.
    #[error("a disk failed")]
    DiskFault,
    /// Memory ran out.
    #[error("memory ran out")]
    NoMemory,
}

/// Why a batch isn't kept.
#[derive(Clone, Copy, Debug, Error, PartialEq, Eq)]
pub enum CommitFault {
    /// An Append of the batch needs so many blocks, and fewer are free before it. The log is as before.
    #[error("the entries need {need} blocks, and {free} are free")]
    LogFull { need: u64, free: u64 },
    /// A disk failed, in this call or an earlier one: the log must be recovered again.
    #[error("a disk failed")]
    DiskFault,
    /// Memory ran out. The log is as before.
    #[error("memory ran out")]
    NoMemory,
}

impl From<NoMemory> for CommitFault {
    ghost use Rattle.std.specs.Prelude.{◌≡◌};
    ghost use Rattle.ox_wal.specs.declared.fault.CommitFault.TheVariants as fault;

    ghost from_gives = { λ _ e. e ≡ fault.NoMemory };

    fn from(_e: NoMemory) -> CommitFault {
        CommitFault::NoMemory
    }
}

impl From<AllocError> for CommitFault {
    ghost use Rattle.std.specs.Prelude.{◌≡◌};
    ghost use Rattle.ox_wal.specs.declared.fault.CommitFault.TheVariants as fault;

    ghost from_gives = { λ _ e. e ≡ fault.NoMemory };

    fn from(_e: AllocError) -> CommitFault {
        CommitFault::NoMemory
    }
}
