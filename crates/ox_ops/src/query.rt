// What a client may ask.
use ox_order::KeyRange;
use ox_types::{Key, Octets};

/// Which record of the key order, or of an index, a get wants.
#[derive(Clone, Copy, Debug, PartialEq, Eq)]
pub enum Compare {
    Equal,
    /// The greatest at or below.
    Floor,
    /// The least at or above.
    Ceiling,
    /// The greatest below.
    Lower,
    /// The least above.
    Higher,
}

/// A read. With `by` it goes by the index of that name (1 to 255 bytes), over secondary keys.
#[derive(Debug, Drop)]
pub enum ShardQuery {
    Get {
        compare: Compare,
        key: Key,
        by: Option<Octets>,
    },
    List {
        range: KeyRange,
        by: Option<Octets>,
    },
    Scan {
        range: KeyRange,
        by: Option<Octets>,
    },
    /// The notices of the entries at offsets above `after`, without the first `skip` of them.
    Notices {
        after: u64,
        skip: u64,
    },
    KeepAlive {
        session: u64,
    },
}
