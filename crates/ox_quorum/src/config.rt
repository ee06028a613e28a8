// Configs and the sets of nodes that meet them.
ghost use Rattle.std.specs.Prelude.{◌≡◌, ◌≤◌, ◌↔◌, IfOk, IsTrue, count_by};
ghost use Rattle.ox_quorum.specs.Ensemble.{has};
ghost use Rattle.ox_quorum.specs.Quorum.{MeetsConfig, meets_config, has_majority as has_majority_of, config_after, Follows};

use crate::ensemble::{Ensemble, is_among};
use ox_types::{NoMemory, NodeId};

/// The nodes that decide together: one ensemble, or two while the second takes the place of the first.
#[derive(Debug, Drop)]
pub enum Config {
    One(Ensemble),
    Joint(Ensemble, Ensemble),
}

/// How many nodes of the ensemble are among these.
fn count_among(ensemble: &Ensemble, nodes: &[NodeId]) -> usize
    ensures counted { result ≡ count_by (has nodes.now) ensemble.now }
    ensures few { result ≤ 7 }
{
    let mut count = 0;
    for node in ensemble.nodes() {
        if is_among(nodes, *node) {
            count += 1;
        }
    }
    count
}

/// Whether more than half of the ensemble is among these nodes.
fn has_majority(ensemble: &Ensemble, nodes: &[NodeId]) -> bool
    ensures { result ≡ has_majority_of (has nodes.now) ensemble.now }
{
    ensemble.nodes().len() < 2 * count_among(ensemble, nodes)
}

/// Whether the set of these nodes meets the config: it holds more than half of each of its ensembles. A node that stands
/// twice counts once. Each node of the config is looked for among the nodes.
pub fn meets(config: &Config, nodes: &[NodeId]) -> bool
    ensures tested { result ≡ meets_config (has nodes.now) config.now }
    ensures meets { IsTrue result ↔ MeetsConfig (has nodes.now) config.now }
{
    match config {
        Config::One(a) => has_majority(a, nodes),
        Config::Joint(a, b) => has_majority(a, nodes) && has_majority(b, nodes),
    }
}

/// The config of the term behind one with this config, which was recorded steady or not: a joint config that is steady
/// leaves its first ensemble, and every other stays. It copies the ensembles, each on its own allocator.
pub fn next_config(config: &Config, steady: bool) -> Result<Config, NoMemory>
    ensures next { IfOk result (λ next. next ≡ config_after config.now steady) }
    ensures follows { IfOk result (λ next. Follows config.now steady next) }
{
    match config {
        Config::One(a) => Ok(Config::One(a.try_clone()?)),
        Config::Joint(a, b) => {
            if steady {
                Ok(Config::One(b.try_clone()?))
            } else {
                Ok(Config::Joint(a.try_clone()?, b.try_clone()?))
            }
        }
    }
}
