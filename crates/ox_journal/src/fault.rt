use thiserror::Error;

/// Why a journal isn't made or read. The places are those of docs/FORMATS.md.
#[derive(Clone, Copy, Debug, Error, PartialEq, Eq)]
pub enum JournalFault {
    /// Neither half is live: `create` may make a journal there.
    #[error("there is no journal")]
    Unformatted,
    /// What stands at this place of this half is no journal's. The call changed nothing.
    #[error("half {half} is damaged at {at}")]
    Damaged { half: u8, at: u64 },
    /// A disk failed: the journal must be recovered again.
    #[error("a disk failed")]
    DiskFault,
    /// Memory ran out: the call changed nothing, and may be made again.
    #[error("memory ran out")]
    NoMemory,
}
