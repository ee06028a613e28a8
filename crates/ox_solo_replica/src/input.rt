use ox_types::{Octets, Peer};
use ox_wire::Body;

/// What a step of a replica is asked.
#[derive(Debug, Drop)]
pub enum Input {
    /// A message of a coordinator or of a node.
    Peer { from: Peer, body: Body },
    /// A request of a client, which knows it by its tag: the bytes of a command, or of a query where it is no write.
    Client { tag: u64, write: bool, body: Octets },
    /// The clock says so many ms. It never goes back, and it stands at 2^53.
    Tick { ms: u64 },
}
