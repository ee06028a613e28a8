// Where the entries of a log come from.

/// Where an entry comes from: the beginning of a term, a request by the number of its arrival, counted from 1, or a timer that
/// ran out, by its id.
#[derive(Clone, Copy, Debug, PartialEq, Eq)]
pub enum Cause {
    Opening,
    Arrival(u64),
    Expiry(u64),
}

/// Where the entry of a shard at a term and an offset comes from.
#[derive(Clone, Copy, Debug, PartialEq, Eq)]
pub struct Origin {
    pub shard: u64,
    pub term: u64,
    pub offset: u64,
    pub cause: Cause,
}
