// The world of a run: the only node, the messages that were sent, and what is kept of the requests that came.
ghost use Rattle.std.specs.Prelude.{◌≡◌, ◌≢◌, ◌≤◌, ◌+◌, ◌++◌, ◌∷◌, [], length, OnOk, IfOk};
ghost use Rattle.std.specs.List.{flat_map};
ghost use Rattle.ox_meaning.specs.Shard.{shard_meaning};
ghost use Rattle.ox_solo_replica.specs.Cutting.{cut_step};
ghost use Rattle.ox_solo_replica.specs.Inputs.{IsInput};
ghost use Rattle.ox_solo_replica.specs.Step.{output_of, replica_step};
ghost use Rattle.ox_report.specs.Effect.{effect_line};
ghost use Rattle.ox_solo_safety.specs.declared.power.Power.TheVariants as power_is;
ghost use Rattle.ox_wire.specs.Events.{stands};
ghost use Rattle.ox_wire.specs.Effects.{Effect as effect};
ghost use Rattle.ox_wire.specs.Effects.{kept_effects};
ghost use Rattle.ox_solo_safety.specs.Run.{arrives, cause_at, grown, message_at, node_takes, starts};
ghost use Rattle.ox_solo_safety.specs.Run.{Knife as knife_is};
ghost use Rattle.ox_solo_safety.specs.World.{opening_world};
ghost use Rattle.ox_types.specs.Durable.{count_of};
ghost use Rattle.oxia_top.specs.Node.{behind_cut, gone};
ghost use Rattle.oxia_top.specs.Letters.{Finds, message_of};
ghost use Rattle.oxia_top.specs.Running.{Follows, IsKnife, knife_of, node_in, noted, origins_from, settled, whole_seen, with_node};

use crate::knife::Knife;
use crate::letter::{Found, Letter, find};
use crate::node::Node;
use crate::telling::{note_origins, tell_cut, tell_whole};
use ox_report::add_opened;
use ox_solo_replica::{Cut, Input, Output};
use ox_solo_safety::Power;
use ox_types::{Entry, Head, KeptAs, List, NoMemory, Octets};
use ox_wire::{Cause, Image, Origin};
use std::alloc::Global;
use std::marker::Model;

/// The node, each message that was sent, how many requests came, the origin of each entry that a leader kept, and the history of
/// the shard.
#[derive(Drop)]
pub struct World {
    node: Node,
    letters: List<Letter>,
    arrivals: u64,
    origins: List<Origin>,
    history: List<Entry>,
}

impl Model for World {
    ghost use Rattle.oxia_top.specs.Running.{Running, running_of};

    ghost Value = { Running };

    ghost view = { λ w. running_of w.node w.letters w.arrivals w.origins w.history };
}

/// Where an entry comes from that a step on this input appends.
fn cause_of(node: &Node, input: &Input) -> Cause
    requires { node.now.power ≡ power_is.Up }
    ensures { result ≡ cause_at node.now.state input.now }
{
    match input {
        Input::Peer { .. } => Cause::Opening,
        Input::Client { tag, .. } => Cause::Arrival(*tag),
        Input::Tick { ms } => match node.due(*ms) {
            None => Cause::Opening,
            Some(id) => Cause::Expiry(id),
        },
    }
}

/// The history grows by what a leader has committed beyond it.
fn grow(node: &Node, history: &mut List<Entry>) -> Result<(), NoMemory>
    requires { node.now.power ≡ power_is.Up }
    ensures { OnOk result (history.new ≡ grown history.old node.now.state) }
{
    if !node.leads() {
        return Ok(());
    }
    let from = history.len() as u64;
    node.copy_entries(from, node.view().commit, history)
}

/// Adds the origins of the entries from an offset on.
fn note(
    alloc: Global,
    node: &Node,
    shard: u64,
    cause: Cause,
    from: u64,
    origins: &mut List<Origin>,
) -> Result<(), NoMemory>
    ensures { OnOk result (origins.new ≡ origins.old ++ origins_from shard cause from node.now.state.disk) }
{
    let mut entries = List::new(alloc);
    node.copy_entries(from, node.view().count, &mut entries)?;
    note_origins(origins, shard, cause, entries.as_slice())
}

/// Whether a gate that was written is found again. A torn write leaves ones, and a gate is one byte that is 1.
fn is_kept(image: Image) -> bool
    ensures { result ≡ stands image }
{
    match image {
        Image::Nothing => false,
        Image::Kept => true,
        Image::Torn => true,
    }
}

impl World {
    /// The world of a run before its first event: node 1 leads shard 0 in term 1, and its Pass is committed. Nothing of this is
    /// told.
    pub fn opening(alloc: Global, blocks: u64) -> Result<World, NoMemory>
        requires some { 1 ≤ blocks }
        requires small { blocks ≤ 65536 }
        ensures { IfOk result (λ w. w ≡ record { blocks = blocks; world = opening_world shard_meaning }) }
    {
        let node = Node::opening(alloc, blocks)?;
        let mut history = List::new(alloc);
        grow(&node, &mut history)?;
        let mut origins = List::new(alloc);
        origins.push(Origin {
            shard: 0,
            term: 1,
            offset: 0,
            cause: Cause::Opening,
        })?;
        Ok(World {
            node,
            letters: List::new(alloc),
            arrivals: 0,
            origins,
            history,
        })
    }

    /// The entries of the shard that are committed.
    pub fn history(&self) -> &[Entry]
        ensures { result.now ≡ self.now.world.history }
    {
        self.history.as_slice()
    }

    /// The origins of the entries that were kept, in the order of their keeping.
    pub fn origins(&self) -> &[Origin]
        ensures { result.now ≡ self.now.world.origins }
    {
        self.origins.as_slice()
    }

    /// Whether the node is up.
    pub fn power(&self) -> Power
        ensures { result ≡ self.now.world.power }
    {
        self.node.power()
    }

    /// One step of the node, with nothing told.
    fn step(self, input: Input) -> Result<(World, Output), NoMemory>
        requires up { self.world.power ≡ power_is.Up }
        requires input { IsInput input }
        ensures output { IfOk result (λ x. x.1 ≡ output_of (replica_step shard_meaning 1 self.blocks self.world.replica input)) }
        ensures world { IfOk result (λ x. x.0 ≡ record self { world = record self.world { replica = (replica_step shard_meaning 1 self.blocks self.world.replica input).state } }) }
    {
        let World {
            node,
            letters,
            arrivals,
            origins,
            history,
        } = self;
        let (node, output) = node.handle(input)?;
        Ok((
            World {
                node,
                letters,
                arrivals,
                origins,
                history,
            },
            output,
        ))
    }

    /// One step of the node that is cut inside this call, with nothing told.
    fn step_cut(self, input: Input, call: u64, stands: bool) -> Result<(World, Cut), NoMemory>
        requires up { self.world.power ≡ power_is.Up }
        requires input { IsInput input }
        requires counted { 1 ≤ call }
        ensures cut { IfOk result (λ x. x.1 ≡ cut_step self.world.replica.disk (replica_step shard_meaning 1 self.blocks self.world.replica input) call stands) }
        ensures world { IfOk result (λ x. x.0 ≡ record self { world = with_node self.world (behind_cut (node_in self) (replica_step shard_meaning 1 self.blocks self.world.replica input) call stands) }) }
    {
        let World {
            node,
            letters,
            arrivals,
            origins,
            history,
        } = self;
        let (node, cut) = node.handle_cut(input, call, stands)?;
        Ok((
            World {
                node,
                letters,
                arrivals,
                origins,
                history,
            },
            cut,
        ))
    }

    /// What a whole step gave is told and kept, where the log had so many entries before it.
    fn settle(
        self,
        alloc: Global,
        text: &mut Octets,
        shard: u64,
        knife: Knife,
        cause: Cause,
        from: u64,
        output: Output,
    ) -> Result<World, NoMemory>
        requires { self.world.power ≡ power_is.Up }
        ensures world { IfOk result (λ w. w ≡ record self { world = settled self.world shard cause from output }) }
        ensures text { OnOk result (text.new ≡ text.old ++ flat_map effect_line (whole_seen self.world shard (knife_of knife) output)) }
    {
        let World {
            node,
            mut letters,
            arrivals,
            mut origins,
            mut history,
        } = self;
        tell_whole(alloc, text, &mut letters, shard, knife, node.head(), output)?;
        note(alloc, &node, shard, cause, from, &mut origins)?;
        grow(&node, &mut history)?;
        Ok(World {
            node,
            letters,
            arrivals,
            origins,
            history,
        })
    }

    /// What a step that was cut gave is told, and the origins of its entries are kept.
    fn fall(
        self,
        alloc: Global,
        text: &mut Octets,
        shard: u64,
        cause: Cause,
        from: u64,
        kept: &[KeptAs],
        head: Head,
    ) -> Result<World, NoMemory>
        ensures world { IfOk result (λ w. w ≡ record self { world = noted self.world shard cause from }) }
        ensures text { OnOk result (text.new ≡ text.old ++ flat_map effect_line (kept_effects kept.now head ++ effect.WasCut ∷ [])) }
    {
        let World {
            node,
            letters,
            arrivals,
            mut origins,
            history,
        } = self;
        tell_cut(text, kept, head)?;
        note(alloc, &node, shard, cause, from, &mut origins)?;
        Ok(World {
            node,
            letters,
            arrivals,
            origins,
            history,
        })
    }

    /// How many entries its log has.
    fn count(&self) -> u64
        ensures { result ≡ count_of self.now.world.replica.disk }
    {
        self.node.view().count
    }

    /// Where an entry comes from that a step on this input appends.
    fn cause(&self, input: &Input) -> Cause
        requires { self.now.world.power ≡ power_is.Up }
        ensures { result ≡ cause_at self.now.world.replica input.now }
    {
        cause_of(&self.node, input)
    }

    /// A step that isn't cut.
    fn take_free(
        self,
        alloc: Global,
        text: &mut Octets,
        shard: u64,
        input: Input,
    ) -> Result<World, NoMemory>
        requires up { self.world.power ≡ power_is.Up }
        requires input { IsInput input }
        ensures { IfOk result (Follows self (node_takes shard_meaning self.blocks self.world shard knife_is.Free input) text.old text.new) }
    {
        let cause = self.cause(&input);
        let from = self.count();
        let (world, output) = self.step(input)?;
        world.settle(alloc, text, shard, Knife::Free, cause, from, output)
    }

    /// A step that is cut inside this call of the disks, if it makes so many.
    fn take_cut(
        self,
        alloc: Global,
        text: &mut Octets,
        shard: u64,
        call: u64,
        image: Image,
        input: Input,
    ) -> Result<World, NoMemory>
        requires up { self.world.power ≡ power_is.Up }
        requires input { IsInput input }
        requires counted { 1 ≤ call }
        ensures { IfOk result (Follows self (node_takes shard_meaning self.blocks self.world shard (knife_is.At call image) input) text.old text.new) }
    {
        let cause = self.cause(&input);
        let from = self.count();
        let (world, cut) = self.step_cut(input, call, is_kept(image))?;
        match cut {
            Cut::Whole(output) => {
                let knife = Knife::At { call, image };
                world.settle(alloc, text, shard, knife, cause, from, output)
            }
            Cut::Down { kept, head } => {
                world.fall(alloc, text, shard, cause, from, kept.as_slice(), head)
            }
        }
    }

    /// A step of a node that is up.
    pub fn take(
        self,
        alloc: Global,
        text: &mut Octets,
        shard: u64,
        knife: Knife,
        input: Input,
    ) -> Result<World, NoMemory>
        requires up { self.world.power ≡ power_is.Up }
        requires input { IsInput input }
        requires knife { IsKnife knife }
        ensures { IfOk result (Follows self (node_takes shard_meaning self.blocks self.world shard (knife_of knife) input) text.old text.new) }
    {
        match knife {
            Knife::Free => self.take_free(alloc, text, shard, input),
            Knife::At { call, image } => self.take_cut(alloc, text, shard, call, image, input),
        }
    }

    /// The next request has come, as this arrival. There are fewer than 2^64 - 1 in a schedule.
    pub fn arrive(self) -> Result<(World, u64), NoMemory>
        ensures world { IfOk result (λ x. x.0 ≡ record self { world = arrives shard_meaning self.blocks self.world }) }
        ensures number { IfOk result (λ x. x.1 ≡ self.world.arrivals + 1) }
    {
        let World {
            node,
            letters,
            arrivals,
            origins,
            history,
        } = self;
        let Some(arrivals) = arrivals.checked_add(1) else {
            return Err(NoMemory);
        };
        Ok((
            World {
                node,
                letters,
                arrivals,
                origins,
                history,
            },
            arrivals,
        ))
    }

    /// What a delivery of the message with this number finds.
    pub fn find(&self, number: u64) -> Found
        ensures { Finds (message_at self.now.world.messages number) result }
    {
        find(self.letters.as_slice(), number)
    }

    /// How many messages were sent.
    pub fn sent(&self) -> u64
        ensures { result ≡ length self.now.world.messages }
    {
        self.letters.len() as u64
    }

    /// A message is sent.
    pub fn post(self, letter: Letter) -> Result<World, NoMemory>
        ensures { IfOk result (λ w. w ≡ record self { world = record self.world { messages = self.world.messages ++ message_of letter ∷ [] } }) }
    {
        let World {
            node,
            mut letters,
            arrivals,
            origins,
            history,
        } = self;
        letters.push(letter)?;
        Ok(World {
            node,
            letters,
            arrivals,
            origins,
            history,
        })
    }

    /// The node goes down, or is gone for good.
    pub fn leave(self, power: Power) -> World
        requires { power ≢ power_is.Up }
        ensures { result ≡ record self { world = with_node self.world (gone (node_in self) power self.world.replica.disk) } }
    {
        let World {
            node,
            letters,
            arrivals,
            origins,
            history,
        } = self;
        World {
            node: node.leave(power),
            letters,
            arrivals,
            origins,
            history,
        }
    }

    /// The node starts from its disks, and tells of it.
    pub fn open(self, alloc: Global, text: &mut Octets) -> Result<World, NoMemory>
        requires { self.world.power ≡ power_is.Down }
        ensures { IfOk result (Follows self (starts shard_meaning self.blocks self.world power_is.Down) text.old text.new) }
    {
        let World {
            node,
            letters,
            arrivals,
            origins,
            history,
        } = self;
        let node = node.start(alloc)?;
        let view = node.view();
        add_opened(text, 0, view.term.0, view.seat, node.head())?;
        Ok(World {
            node,
            letters,
            arrivals,
            origins,
            history,
        })
    }
}
