// What holds of every run of one node.
ghost use Rattle.std.specs.Prelude.{ℕ, List};
ghost use Rattle.ox_meaning.specs.Shard.{shard_meaning};
ghost use Rattle.ox_wire.specs.Events.{RunEvent as Event};
ghost use Rattle.ox_solo_safety.specs.World.{opening_world};
ghost use Rattle.ox_solo_safety.specs.Run.{AreOfOneNode, world_after};
ghost use Rattle.ox_wire.specs.Origins.{AreInStep};
ghost use Rattle.ox_solo_safety.specs.Asked.{AskLawfully};
ghost use Rattle.ox_solo_safety.specs.Legal.{IsLegal};
ghost use Rattle.ox_solo_safety.specs.Shard.{shard_noticing};

use ox_meaning::law_shard_is_machine;

/// Every run of a node that is alone, over shards, is legal: through any crash, restart and new term. Requests are bytes; of
/// these it is used that what they are read as is lawful.
pub fn law_legal()
    ensures { (blocks : ℕ) (es : List Event) → AreOfOneNode es → AskLawfully shard_meaning es → IsLegal shard_meaning blocks es shard_noticing }
{
    law_shard_is_machine();
}

/// The origins of a run of a node that is alone stand in the order of its history.
pub fn law_in_step()
    ensures { (blocks : ℕ) (es : List Event) → AreOfOneNode es
        → AreInStep (world_after shard_meaning blocks (opening_world shard_meaning) es).history (world_after shard_meaning blocks (opening_world shard_meaning) es).origins }
{}
