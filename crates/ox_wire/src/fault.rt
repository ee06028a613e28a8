use ox_bytes::WireRule;
use thiserror::Error;

/// Why bytes were not read as a message (docs/FORMATS.md).
#[derive(Clone, Copy, Debug, PartialEq, Eq, Error)]
pub enum WireFault {
    /// They are no message: the place of the first field at fault, counted from 0, and the rule that it breaks.
    #[error("the bytes break the rule {rule:?} at byte {at}")]
    BadMessage { at: u64, rule: WireRule },
    #[error("memory ran out")]
    NoMemory,
}
