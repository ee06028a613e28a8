// Ensembles.
ghost use Rattle.std.specs.Prelude.{◌≡◌, ◌<◌, ◌^◌, All, [], None, Some, IfNone, MatchResult, IfOk, IsPermutation};
ghost use Rattle.ox_quorum.specs.Ensemble.{has, first_again, ensemble_fault};

use ox_types::{NoMemory, NodeId};
use std::marker::Model;
use thiserror::Error;

/// The most nodes that an ensemble may have.
pub const ENSEMBLE_LIMIT: usize = 7;

/// Why nodes are no ensemble: the first of the rules that they break.
#[derive(Clone, Copy, Debug, PartialEq, Eq, Error)]
pub enum EnsembleFault {
    #[error("an ensemble has 1 to {ENSEMBLE_LIMIT} nodes, and this one {len}")]
    Size { len: usize },
    #[error("node {} stands twice in the ensemble", node.0)]
    Repeated { node: NodeId },
}

/// The nodes that decide together, by majority: 1 to 7. Contracts see it as the list of their ids, which rise.
#[derive(Debug, Drop)]
pub struct Ensemble {
    nodes: Vec<NodeId>,
}

impl Model for Ensemble {
    ghost use Rattle.std.specs.Prelude.{List, ℕ};
    ghost use Rattle.std.specs.Coded.{coded_list, coded_ℕ};
    ghost use Rattle.ox_quorum.specs.Ensemble.{IsEnsemble};

    ghost Value = { List ℕ };

    ghost coded = { coded_list coded_ℕ };

    ghost view = { λ e. e.nodes.items };

    ghost invariant = { λ e. IsEnsemble e.nodes.items };
}

/// Whether the node is one of these, at the cost of looking at each.
pub(crate) fn is_among(nodes: &[NodeId], node: NodeId) -> bool
    ensures { result ≡ has nodes.now node }
{
    nodes.iter().any(|n| node.0 == n.0)
}

/// The number of a node, which has 32 bits.
fn id_of(node: NodeId) -> u32
    ensures same { result ≡ node }
    ensures small { result < 2 ^ 32 }
{
    node.0
}

/// The first node that is one of those before it; where there is none, each id is seen to have 32 bits.
fn first_repeated(nodes: &[NodeId]) -> Option<NodeId>
    ensures first { result ≡ first_again [] nodes.now }
    ensures ids { IfNone result (All (λ n. n < 2 ^ 32) nodes.now) }
{
    for (i, node) in nodes.iter().enumerate() {
        let id = id_of(*node);
        if is_among(&nodes[..i], NodeId(id)) {
            return Some(NodeId(id));
        }
    }
    None
}

impl Ensemble {
    ghost use Rattle.ox_quorum.specs.Ensemble.{IsEnsemble};

    /// The ensemble of these nodes, brought into the order of their ids. `Size` where they are none or more than 7, and
    /// else `Repeated` with the first node, in the order given, that is one of those before it. It takes no memory, and a
    /// refused vector is dropped.
    pub fn try_new(nodes: Vec<NodeId>) -> Result<Ensemble, EnsembleFault>
        ensures { MatchResult result (λ ensemble. IsEnsemble ensemble × IsPermutation nodes.items ensemble × (ensemble_fault nodes.items ≡ None)) (λ fault. ensemble_fault nodes.items ≡ Some fault) }
    {
        let mut nodes = nodes;
        if nodes.is_empty() || nodes.len() > ENSEMBLE_LIMIT {
            return Err(EnsembleFault::Size { len: nodes.len() });
        }
        if let Some(node) = first_repeated(nodes.as_slice()) {
            return Err(EnsembleFault::Repeated { node });
        }
        nodes.sort_unstable_by_key(|n| n.0);
        Ok(Ensemble { nodes })
    }

    /// The ensemble of nodes that are known to be one.
    pub(crate) fn of(nodes: Vec<NodeId>) -> Ensemble
        requires { IsEnsemble nodes.items }
        ensures { result ≡ nodes.items }
    {
        Ensemble { nodes }
    }

    /// Whether the node is one of the ensemble's.
    pub fn holds(&self, node: NodeId) -> bool
        ensures { result ≡ has self.now node }
    {
        is_among(self.nodes.as_slice(), node)
    }

    /// The nodes by rising id.
    pub fn nodes(&self) -> &[NodeId]
        ensures same { result.now ≡ self.now }
        ensures lawful { IsEnsemble result.now }
    {
        self.nodes.as_slice()
    }

    /// A copy on the same allocator.
    pub fn try_clone(&self) -> Result<Ensemble, NoMemory>
        ensures { IfOk result (λ ensemble. ensemble ≡ self.now) }
    {
        let nodes = self.nodes.clone()?;
        Ok(Ensemble { nodes })
    }
}
