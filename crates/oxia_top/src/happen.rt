// One event of a run.
ghost use Rattle.std.specs.Prelude.{◌≡◌, ◌+◌, ◌++◌, IsTrue, IfOk, OnOk};
ghost use Rattle.ox_meaning.specs.Shard.{shard_meaning};
ghost use Rattle.ox_solo_replica.specs.Inputs.{IsInput};
ghost use Rattle.ox_solo_replica.specs.declared.input.Input.TheVariants as input_is;
ghost use Rattle.ox_report.specs.Effect.{effect_line};
ghost use Rattle.ox_wire.specs.Effects.{Effect as effect};
ghost use Rattle.ox_solo_safety.specs.Run.{comes, delivers, happens, if_up, lead_body, loses, message_at, node_takes, sends, shown, starts, stops, takes};
ghost use Rattle.ox_solo_safety.specs.declared.power.Power.TheVariants as power_is;
ghost use Rattle.ox_schedule.specs.Lawful.{asks_encodable, is_encodable, is_of_one_node, turn_encodable};
ghost use Rattle.ox_types.specs.declared.peer.Peer.TheVariants as peer;
ghost use Rattle.ox_wire.specs.declared.body.Body.TheVariants as body_is;
ghost use Rattle.oxia_top.specs.Events.{event_of, request_of, turn_of};
ghost use Rattle.oxia_top.specs.Running.{Follows, IsKnife, knife_of};

use crate::knife::Knife;
use crate::letter::{Found, Letter, become_leader, leader_body, new_term};
use crate::wire::carry_request;
use crate::world::World;
use ox_report::{add_arrival, add_down, add_ignored, add_sent, add_unknown};
use ox_schedule::Request;
use ox_solo_replica::Input;
use ox_solo_safety::Power;
use ox_types::{CoordId, NoMemory, NodeId, Octets, Peer, Term};
use ox_wire::{Body, Event, Request as Asked, Turn};
use std::alloc::Global;

impl World {
    /// What is asked of an actor that isn't up does nothing.
    fn is_down(self, text: &mut Octets) -> Result<World, NoMemory>
        ensures { IfOk result (Follows self (shown self.world effect.Down) text.old text.new) }
    {
        add_down(text)?;
        Ok(self)
    }

    /// What can't be done to a node does nothing.
    fn ignore(self, text: &mut Octets) -> Result<World, NoMemory>
        ensures { IfOk result (Follows self (shown self.world effect.Ignored) text.old text.new) }
    {
        add_ignored(text)?;
        Ok(self)
    }

    /// A step of the node, if it is up.
    fn hand(
        self,
        alloc: Global,
        text: &mut Octets,
        shard: u64,
        knife: Knife,
        input: Input,
    ) -> Result<World, NoMemory>
        requires input { IsInput input }
        requires knife { IsKnife knife }
        ensures { IfOk result (Follows self (if_up self.world self.world.power (node_takes shard_meaning self.blocks self.world shard (knife_of knife) input)) text.old text.new) }
    {
        match self.power() {
            Power::Up => self.take(alloc, text, shard, knife, input),
            Power::Down | Power::Lost => self.is_down(text),
        }
    }

    /// A request comes to a node that is up.
    fn come(
        self,
        alloc: Global,
        text: &mut Octets,
        shard: u64,
        knife: Knife,
        request: &Request,
    ) -> Result<World, NoMemory>
        requires up { self.world.power ≡ power_is.Up }
        requires knife { IsKnife knife }
        requires encodable { IsTrue (is_encodable request.now) }
        ensures { IfOk result (Follows self (comes shard_meaning self.blocks self.world shard (request_of request.now) (knife_of knife)) text.old text.new) }
    {
        let (world, tag) = self.arrive()?;
        let Asked { write, body } = carry_request(alloc, tag, shard, request)?;
        add_arrival(text, tag)?;
        world.take(
            alloc,
            text,
            shard,
            knife,
            Input::Client { tag, write, body },
        )
    }

    /// A client sends a request.
    fn ask(
        self,
        alloc: Global,
        text: &mut Octets,
        shard: u64,
        knife: Knife,
        request: &Request,
    ) -> Result<World, NoMemory>
        requires knife { IsKnife knife }
        requires encodable { IsTrue (is_encodable request.now) }
        ensures { IfOk result (Follows self (if_up self.world self.world.power (comes shard_meaning self.blocks self.world shard (request_of request.now) (knife_of knife))) text.old text.new) }
    {
        match self.power() {
            Power::Up => self.come(alloc, text, shard, knife, request),
            Power::Down | Power::Lost => self.is_down(text),
        }
    }

    /// No such message was sent.
    fn miss(self, text: &mut Octets) -> Result<World, NoMemory>
        ensures { IfOk result (Follows self (shown self.world effect.Unknown) text.old text.new) }
    {
        add_unknown(text)?;
        Ok(self)
    }

    /// NewTerm of coordinator 0 arrives at the node.
    fn bring_fence(
        self,
        alloc: Global,
        text: &mut Octets,
        shard: u64,
        knife: Knife,
        term: Term,
    ) -> Result<World, NoMemory>
        requires knife { IsKnife knife }
        ensures { IfOk result (Follows self (if_up self.world self.world.power (node_takes shard_meaning self.blocks self.world shard (knife_of knife) (input_is.Peer (peer.Coordinator 0) (body_is.NewTerm term)))) text.old text.new) }
    {
        let input = new_term(term)?;
        self.hand(alloc, text, shard, knife, input)
    }

    /// BecomeLeader of coordinator 0 arrives at the node.
    fn bring_lead(
        self,
        alloc: Global,
        text: &mut Octets,
        shard: u64,
        knife: Knife,
        term: Term,
    ) -> Result<World, NoMemory>
        requires knife { IsKnife knife }
        ensures { IfOk result (Follows self (if_up self.world self.world.power (node_takes shard_meaning self.blocks self.world shard (knife_of knife) (input_is.Peer (peer.Coordinator 0) (lead_body term)))) text.old text.new) }
    {
        let input = become_leader(alloc, term)?;
        self.hand(alloc, text, shard, knife, input)
    }

    /// The message with this number arrives, counted from 1.
    fn deliver(
        self,
        alloc: Global,
        text: &mut Octets,
        knife: Knife,
        number: u64,
    ) -> Result<World, NoMemory>
        requires knife { IsKnife knife }
        ensures { IfOk result (Follows self (delivers shard_meaning self.blocks self.world (knife_of knife) (message_at self.world.messages number)) text.old text.new) }
    {
        match self.find(number) {
            Found::Nothing => self.miss(text),
            Found::ToCoordinator => self.is_down(text),
            Found::NewTerm { shard, term } => self.bring_fence(alloc, text, shard, knife, term),
            Found::BecomeLeader { shard, term } => {
                self.bring_lead(alloc, text, shard, knife, term)
            }
        }
    }

    /// An actor takes a turn.
    fn turn(
        self,
        alloc: Global,
        text: &mut Octets,
        knife: Knife,
        turn: Turn<Request>,
    ) -> Result<World, NoMemory>
        requires knife { IsKnife knife }
        requires encodable { IsTrue (turn_encodable turn) }
        ensures { IfOk result (Follows self (takes shard_meaning self.blocks self.world (knife_of knife) (turn_of turn)) text.old text.new) }
    {
        match turn {
            Turn::Client { shard, request, .. } => self.ask(alloc, text, shard, knife, &request),
            Turn::Deliver { message } => self.deliver(alloc, text, knife, message),
            Turn::Tick { shard, ms, .. } => {
                self.hand(alloc, text, shard, knife, Input::Tick { ms })
            }
        }
    }

    /// The node goes down.
    fn stop(self, text: &mut Octets) -> Result<World, NoMemory>
        ensures { IfOk result (Follows self (stops shard_meaning self.blocks self.world self.world.power) text.old text.new) }
    {
        match self.power() {
            Power::Up => Ok(self.leave(Power::Down)),
            Power::Down | Power::Lost => self.ignore(text),
        }
    }

    /// The node starts from its disks.
    fn start(self, alloc: Global, text: &mut Octets) -> Result<World, NoMemory>
        ensures { IfOk result (Follows self (starts shard_meaning self.blocks self.world self.world.power) text.old text.new) }
    {
        match self.power() {
            Power::Down => self.open(alloc, text),
            Power::Up | Power::Lost => self.ignore(text),
        }
    }

    /// The node is gone for good, with its disks.
    fn lose(self, text: &mut Octets) -> Result<World, NoMemory>
        ensures { IfOk result (Follows self (loses shard_meaning self.blocks self.world self.world.power) text.old text.new) }
    {
        match self.power() {
            Power::Up | Power::Down => Ok(self.leave(Power::Lost)),
            Power::Lost => self.ignore(text),
        }
    }

    /// Coordinator 0 sends NewTerm to the node.
    fn fence(self, text: &mut Octets, shard: u64, term: Term) -> Result<World, NoMemory>
        ensures { IfOk result (Follows self (sends self.world 1 shard (body_is.NewTerm term)) text.old text.new) }
    {
        let body = Body::NewTerm { term };
        add_order(text, self.sent(), shard, &body)?;
        self.post(Letter::NewTerm { shard, term })
    }

    /// Coordinator 0 sends BecomeLeader to the node.
    fn lead(
        self,
        alloc: Global,
        text: &mut Octets,
        shard: u64,
        term: Term,
    ) -> Result<World, NoMemory>
        ensures { IfOk result (Follows self (sends self.world 1 shard (lead_body term)) text.old text.new) }
    {
        let body = leader_body(alloc, term)?;
        add_order(text, self.sent(), shard, &body)?;
        self.post(Letter::BecomeLeader { shard, term })
    }

    /// What happens next: the world behind it, and what was seen of it as lines of the text. It costs the step of the node. The
    /// event is at node 1 and shard 0. After an `Err` the text is of no use.
    #[tactic(auto, unfolding(ox_solo_safety::specs::Run::happens))]
    pub fn happen(
        self,
        alloc: Global,
        text: &mut Octets,
        event: Event<Request>,
    ) -> Result<World, NoMemory>
        requires there { IsTrue (is_of_one_node event) }
        requires encodable { IsTrue (asks_encodable event) }
        ensures { IfOk result (Follows self (happens shard_meaning self.blocks self.world (event_of event)) text.old text.new) }
    {
        match event {
            Event::Takes(turn) => self.turn(alloc, text, Knife::Free, turn),
            Event::Cut { call, image, turn } => {
                self.turn(alloc, text, Knife::At { call, image }, turn)
            }
            Event::Stop { .. } => self.stop(text),
            Event::Start { .. } => self.start(alloc, text),
            Event::Lose { .. } => self.lose(text),
            Event::Fence { shard, term, .. } => self.fence(text, shard, Term(term)),
            Event::Lead { shard, term, .. } => self.lead(alloc, text, shard, Term(term)),
        }
    }
}

/// Tells that coordinator 0 sends a message to node 1, where so many were sent before.
fn add_order(text: &mut Octets, sent: u64, shard: u64, body: &Body) -> Result<(), NoMemory>
    ensures { OnOk result (text.new ≡ text.old ++ effect_line (effect.Sent (sent + 1) (peer.Coordinator 0) (peer.Node 1) shard body.now)) }
{
    let Some(number) = sent.checked_add(1) else {
        return Err(NoMemory);
    };
    let from = Peer::Coordinator(CoordId(0));
    add_sent(text, number, from, Peer::Node(NodeId(1)), shard, body)
}
