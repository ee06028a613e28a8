/// A timer of a machine that runs since a time (ms). `expired`: the entry that ends it is in the log, and is maybe not
/// committed yet.
#[derive(Clone, Copy, Debug, PartialEq, Eq)]
pub struct Running {
    pub id: u64,
    pub timeout: u64,
    pub since: u64,
    pub expired: bool,
}
