// The bytes of followers, whose ids rise in a list.
ghost use Rattle.std.specs.Prelude.{◌≡◌, ◌<◌, ◌+◌, IsTrue, IfOk};
ghost use Rattle.ox_bytes.specs.Reading.{Gives};
ghost use Rattle.ox_bytes.specs.Writing.{Puts};
ghost use Rattle.ox_bytes.specs.Form.{checked};
ghost use Rattle.ox_quorum.specs.Forms.{node_from};
ghost use Rattle.ox_wire.specs.BodyForms.{follower_from, followers as followers_form};

use crate::body::Follower;
use ox_bytes::{Field, FieldFault, Reader, WireRule, Writer};
use ox_types::{List, NoMemory, NodeId};

impl Field for Follower {
    ghost use Rattle.ox_wire.specs.BodyForms.{follower};
    ghost use Rattle.ox_wire.specs.BodyLaws.{follower_exact};

    ghost form = { follower };

    ghost exact = { follower_exact };

    #[tactic(auto, using(ox_bytes::specs::WritingLaws::fronts), unfolding(crate::specs::BodyForms::follower))]
    fn put(&self, to: &mut Writer) -> Result<(), NoMemory> {
        to.put_u32(self.node.0)?;
        self.table.put(to)
    }

    #[tactic(auto, unfolding(crate::specs::BodyForms::follower))]
    fn read(from: &mut Reader<'_>) -> Result<Follower, FieldFault> {
        let node = NodeId(from.take_u32()?);
        let table = Field::take(from)?;
        Ok(Follower { node, table })
    }
}

/// A node whose id is at least this one, or else out of order.
#[tactic(auto, unfolding(ox_quorum::specs::Forms::node_from))]
fn take_node(from: &mut Reader<'_>, least: u64) -> Result<NodeId, FieldFault>
    ensures { Gives result from.new ((node_from least).at from.old) }
{
    let order = from.bad(WireRule::Order);
    let id = from.take_u32()?;
    if u64::from(id) < least {
        return Err(FieldFault::Bad(order));
    }
    Ok(NodeId(id))
}

/// A follower whose id is at least this one.
#[tactic(auto, unfolding(crate::specs::BodyForms::follower_from))]
fn take_follower(from: &mut Reader<'_>, least: u64) -> Result<Follower, FieldFault>
    ensures { Gives result from.new ((follower_from least).at from.old) }
{
    let node = take_node(from, least)?;
    let table = Field::take(from)?;
    Ok(Follower { node, table })
}

/// The least id of a follower behind this one.
fn past(follower: &Follower) -> u64
    ensures { result ≡ follower.now.node + 1 }
{
    u64::from(follower.node.0) + 1
}

/// The followers of a leader. Memory is taken for those that came.
#[tactic(auto, unfolding(ox_bytes::specs::Lists::list_by_at))]
pub(crate) fn take_followers(from: &mut Reader<'_>) -> Result<List<Follower>, FieldFault>
    ensures { Gives result from.new (followers_form.at from.old) }
{
    let count = from.take_u32()?;
    let mut followers = List::new(from.alloc());
    let mut least = 0;
    for _ in 0..count {
        let follower = take_follower(from, least)?;
        least = past(&follower);
        followers.push(follower)?;
    }
    Ok(followers)
}

/// Their number, and the followers.
#[tactic(auto, using(ox_bytes::specs::WritingLaws::fronts))]
pub(crate) fn put_followers(followers: &List<Follower>, to: &mut Writer) -> Result<(), NoMemory>
    requires { IsTrue (followers_form.is_lawful followers.now) }
    ensures { Puts result to.old to.new (followers_form.text followers.now) }
{
    followers.put(to)
}
