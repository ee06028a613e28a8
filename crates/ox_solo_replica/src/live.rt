use crate::leading::Leading;
use ox_types::NodeId;

/// What a replica knows beside its durable state: how many entries are committed, the machine behind them, the clock (ms),
/// the node that last said to lead the term, and what it knows where it leads itself. A crash loses it.
#[derive(Drop)]
pub struct Live<M> {
    pub commit: u64,
    pub machine: M,
    pub now: u64,
    pub hint: Option<NodeId>,
    pub leading: Option<Leading>,
}
