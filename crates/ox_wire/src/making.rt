// Messages that can be written, made of parts that can.
ghost use Rattle.std.specs.Prelude.{◌≡◌, ◌<◌, ◌≤◌, ◌^◌, length, IsTrue};
ghost use Rattle.ox_types.specs.Limits.{term_limit, count_limit};
ghost use Rattle.ox_bytes.specs.LogForms.{peer as peer_form};
ghost use Rattle.ox_wire.specs.declared.message.Message.TheVariants as message_is;
ghost use Rattle.ox_wire.specs.declared.message.Outcome.TheVariants as outcome_is;
ghost use Rattle.ox_wire.specs.BodyForms.{body as body_form};
ghost use Rattle.ox_wire.specs.MessageForms.{message as message_form, outcome as outcome_form, swap_outcome as swap_outcome_form};

use crate::body::Body;
use crate::message::{Message, Outcome};
use crate::swap::SwapOutcome;
use ox_types::{CoordId, NodeId, Octets, Peer, ShardId, Term};

/// The number of a node, which has 32 bits.
fn node_number(node: NodeId) -> u32
    ensures same { result ≡ node }
    ensures small { result < 2 ^ 32 }
{
    node.0
}

/// The number of a coordinator, which has 32 bits.
fn coordinator_number(coordinator: CoordId) -> u32
    ensures same { result ≡ coordinator }
    ensures small { result < 2 ^ 32 }
{
    coordinator.0
}

/// This peer has a text.
fn see_peer(peer: &Peer)
    ensures { IsTrue (peer_form.is_lawful peer.now) }
{
    match peer {
        Peer::Node(node) => {
            let _number = node_number(*node);
        }
        Peer::Coordinator(coordinator) => {
            let _number = coordinator_number(*coordinator);
        }
    }
}

impl Outcome {
    /// The write is committed at this term and offset, with this reply, whose length has four bytes.
    #[tactic(auto, unfolding(crate::specs::MessageForms::outcome))]
    pub fn ack(term: Term, offset: u64, reply: Octets) -> Outcome
        requires small_term { term ≤ term_limit }
        requires small_offset { offset < count_limit }
        requires countable { length reply < 2 ^ 32 }
        ensures same { result ≡ outcome_is.Ack term offset reply }
        ensures lawful { IsTrue (outcome_form.is_lawful result) }
    {
        Outcome::Ack {
            term,
            offset,
            reply,
        }
    }

    /// The read was answered at so many committed entries, with this answer, whose length has four bytes.
    #[tactic(auto, unfolding(crate::specs::MessageForms::outcome))]
    pub fn read(term: Term, prefix: u64, answer: Octets) -> Outcome
        requires small_term { term ≤ term_limit }
        requires small_prefix { prefix ≤ count_limit }
        requires countable { length answer < 2 ^ 32 }
        ensures same { result ≡ outcome_is.Read term prefix answer }
        ensures lawful { IsTrue (outcome_form.is_lawful result) }
    {
        Outcome::Read {
            term,
            prefix,
            answer,
        }
    }
}

impl Message {
    /// A message between replicas and coordinators of a shard.
    #[tactic(auto, unfolding(crate::specs::MessageForms::message))]
    pub fn peer(from: Peer, to: Peer, shard: ShardId, body: Body) -> Message
        requires { IsTrue (body_form.is_lawful body) }
        ensures same { result ≡ message_is.Peer from to shard body }
        ensures lawful { IsTrue (message_form.is_lawful result) }
    {
        see_peer(&from);
        see_peer(&to);
        let _shard = shard.0;
        Message::Peer {
            from,
            to,
            shard,
            body,
        }
    }

    /// A client's request: the bytes of a command, or of a query where it is no write. Their length has four bytes.
    #[tactic(auto, unfolding(crate::specs::MessageForms::message))]
    pub fn request(number: u64, shard: ShardId, write: bool, body: Octets) -> Message
        requires { length body < 2 ^ 32 }
        ensures same { result ≡ message_is.Request number shard write body }
        ensures lawful { IsTrue (message_form.is_lawful result) }
    {
        let _shard = shard.0;
        Message::Request {
            number,
            shard,
            write,
            body,
        }
    }

    /// The answer to the request of this number.
    #[tactic(auto, unfolding(crate::specs::MessageForms::message))]
    pub fn reply(number: u64, outcome: Outcome) -> Message
        requires { IsTrue (outcome_form.is_lawful outcome) }
        ensures same { result ≡ message_is.Reply number outcome }
        ensures lawful { IsTrue (message_form.is_lawful result) }
    {
        Message::Reply { number, outcome }
    }

    /// A swap of the node `out` for the node `enter`.
    #[tactic(auto, unfolding(crate::specs::MessageForms::message))]
    pub fn swap(number: u64, shard: ShardId, out: NodeId, enter: NodeId) -> Message
        ensures same { result ≡ message_is.Swap number shard out enter }
        ensures lawful { IsTrue (message_form.is_lawful result) }
    {
        let _ids = (shard.0, out.0, enter.0);
        Message::Swap {
            number,
            shard,
            out,
            enter,
        }
    }

    /// The answer to the swap of this number.
    #[tactic(auto, unfolding(crate::specs::MessageForms::message))]
    pub fn swap_reply(number: u64, outcome: SwapOutcome) -> Message
        requires { IsTrue (swap_outcome_form.is_lawful outcome) }
        ensures same { result ≡ message_is.SwapReply number outcome }
        ensures lawful { IsTrue (message_form.is_lawful result) }
    {
        Message::SwapReply { number, outcome }
    }
}
