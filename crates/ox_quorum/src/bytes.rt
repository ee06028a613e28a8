// The bytes of ensembles and configs (docs/FORMATS.md).
ghost use Rattle.std.specs.Prelude.{◌≡◌, ◌<◌, ◌+◌, ◌^◌, IfOk};
ghost use Rattle.ox_bytes.specs.Reading.{Gives};
ghost use Rattle.ox_bytes.specs.Writing.{Puts};
ghost use Rattle.ox_quorum.specs.Ensemble.{IsEnsemble};
ghost use Rattle.ox_quorum.specs.Forms.{ensemble_size, node_from, ensemble as ensemble_form};

use crate::config::Config;
use crate::ensemble::{ENSEMBLE_LIMIT, Ensemble};
use ox_bytes::{Field, FieldFault, Reader, WireRule, Writer};
use ox_types::{List, NoMemory, NodeId};

/// The number of an ensemble's nodes: 1 to 7, or else out of range.
#[tactic(auto, unfolding(crate::specs::Forms::ensemble_size))]
fn take_size(from: &mut Reader<'_>) -> Result<u32, FieldFault>
    ensures { Gives result from.new (ensemble_size.at from.old) }
{
    let range = from.bad(WireRule::Range);
    let count = from.take_u32()?;
    if count == 0 || count > ENSEMBLE_LIMIT as u32 {
        return Err(FieldFault::Bad(range));
    }
    Ok(count)
}

/// A node whose id is at least this one, or else out of order.
#[tactic(auto, unfolding(crate::specs::Forms::node_from))]
fn take_node(from: &mut Reader<'_>, least: u64) -> Result<NodeId, FieldFault>
    ensures small { IfOk result (λ node. node < 2 ^ 32) }
    ensures read { Gives result from.new ((node_from least).at from.old) }
{
    let order = from.bad(WireRule::Order);
    let id = from.take_u32()?;
    if u64::from(id) < least {
        return Err(FieldFault::Bad(order));
    }
    Ok(NodeId(id))
}

/// The least id of a node behind this one.
fn past(node: NodeId) -> u64
    ensures { result ≡ node + 1 }
{
    u64::from(node.0) + 1
}

/// The nodes of an ensemble. Memory is taken for the nodes that came.
#[tactic(auto, unfolding(ox_bytes::specs::Lists::list_by_at))]
fn take_nodes(from: &mut Reader<'_>) -> Result<List<NodeId>, FieldFault>
    ensures read { Gives result from.new (ensemble_form.at from.old) }
    ensures lawful { IfOk result (λ nodes. IsEnsemble nodes) }
{
    let count = take_size(from)?;
    let mut nodes = List::new(from.alloc());
    let mut least = 0;
    for _ in 0..count {
        let node = take_node(from, least)?;
        least = past(node);
        nodes.push(node)?;
    }
    Ok(nodes)
}

impl Field for Ensemble {
    ghost use Rattle.ox_quorum.specs.Forms.{ensemble};
    ghost use Rattle.ox_quorum.specs.FormLaws.{ensemble_exact};

    ghost form = { ensemble };

    ghost exact = { ensemble_exact };

    #[tactic(auto, using(ox_bytes::specs::WritingLaws::fronts))]
    fn put(&self, to: &mut Writer) -> Result<(), NoMemory>
        ensures { Puts result to.old to.new (ensemble.text self.now) }
    {
        to.put_u32(self.nodes().len() as u32)?;
        for node in self.nodes() {
            to.put_u32(node.0)?;
        }
        Ok(())
    }

    fn read(from: &mut Reader<'_>) -> Result<Ensemble, FieldFault> {
        let nodes = take_nodes(from)?;
        Ok(Ensemble::of(nodes.into_vec()))
    }
}

/// The byte of the kind, and the ensembles.
impl Field for Config {
    ghost use Rattle.ox_quorum.specs.Forms.{config};
    ghost use Rattle.ox_quorum.specs.FormLaws.{config_exact};

    ghost form = { config };

    ghost exact = { config_exact };

    #[tactic(auto, using(ox_bytes::specs::WritingLaws::fronts), unfolding(crate::specs::Forms::config))]
    fn put(&self, to: &mut Writer) -> Result<(), NoMemory>
        ensures { Puts result to.old to.new (config.text self.now) }
    {
        match self {
            Config::One(a) => {
                to.put_u8(0)?;
                a.put(to)
            }
            Config::Joint(a, b) => {
                to.put_u8(1)?;
                a.put(to)?;
                b.put(to)
            }
        }
    }

    #[tactic(auto, unfolding(crate::specs::Forms::config, ox_bytes::specs::Fields::choice_at))]
    fn read(from: &mut Reader<'_>) -> Result<Config, FieldFault> {
        match from.take_tag(2)? {
            0 => {
                let a = Field::take(from)?;
                Ok(Config::One(a))
            }
            _ => {
                let a = Field::take(from)?;
                let b = Field::take(from)?;
                Ok(Config::Joint(a, b))
            }
        }
    }
}
