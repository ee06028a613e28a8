// Messages that were sent.
ghost use Rattle.std.specs.Prelude.{◌≡◌, ◌++◌, ◌+◌, ◌∷◌, [], length, IfOk, OnOk};
ghost use Rattle.std.specs.List.{flat_map};
ghost use Rattle.ox_solo_replica.specs.Inputs.{IsInput};
ghost use Rattle.ox_solo_replica.specs.declared.input.Input.TheVariants as input_is;
ghost use Rattle.ox_report.specs.Effect.{effect_line};
ghost use Rattle.ox_wire.specs.Effects.{Effect as effect};
ghost use Rattle.ox_solo_safety.specs.Run.{lead_body, messages_of, sent_effects};
ghost use Rattle.ox_types.specs.declared.peer.Peer.TheVariants as peer;
ghost use Rattle.ox_wire.specs.declared.body.Body.TheVariants as body_is;
ghost use Rattle.oxia_top.specs.Letters.{found_as, letter_at, messages_in};

use ox_quorum::{Config, Ensemble};
use ox_report::add_sent;
use ox_solo_replica::{Input, Outgoing};
use ox_types::{CoordId, List, NoMemory, NodeId, Octets, Peer, TERM_LIMIT, Term};
use ox_wire::Body;
use std::alloc::Global;

/// A message that was sent: what is needed to deliver it again. Coordinator 0 sends to node 1, and node 1 to a coordinator.
#[derive(Debug, Drop)]
pub enum Letter {
    NewTerm { shard: u64, term: Term },
    /// The ensemble is node 1 alone.
    BecomeLeader { shard: u64, term: Term },
    ToCoordinator { to: CoordId, shard: u64, body: Body },
}

/// What a delivery finds.
#[derive(Clone, Copy, Debug, PartialEq, Eq)]
pub enum Found {
    /// No message has the number.
    Nothing,
    /// It is for a coordinator, and none is up.
    ToCoordinator,
    NewTerm { shard: u64, term: Term },
    BecomeLeader { shard: u64, term: Term },
}

/// What the message with this number is, counted from 1.
pub fn find(letters: &[Letter], number: u64) -> Found
    ensures { result ≡ found_as (letter_at letters.now number) }
{
    if number == 0 {
        return Found::Nothing;
    }
    match letters.get((number - 1) as usize) {
        None => Found::Nothing,
        Some(Letter::NewTerm { shard, term }) => Found::NewTerm {
            shard: *shard,
            term: *term,
        },
        Some(Letter::BecomeLeader { shard, term }) => Found::BecomeLeader {
            shard: *shard,
            term: *term,
        },
        Some(Letter::ToCoordinator { .. }) => Found::ToCoordinator,
    }
}

/// BecomeLeader of the opening ensemble, which is node 1 alone.
pub fn leader_body(alloc: Global, term: Term) -> Result<Body, NoMemory>
    ensures { IfOk result (λ b. b ≡ lead_body term) }
{
    let mut nodes = Vec::new(alloc);
    nodes.push(NodeId(1))?;
    match Ensemble::try_new(nodes) {
        Ok(ensemble) => Ok(Body::BecomeLeader {
            term,
            config: Config::One(ensemble),
            followers: List::new(alloc),
        }),
        Err(_) => Err(NoMemory),
    }
}

/// NewTerm as a replica takes it. No message has a term above the latest.
pub fn new_term(term: Term) -> Result<Input, NoMemory>
    ensures input { IfOk result (λ i. i ≡ input_is.Peer (peer.Coordinator 0) (body_is.NewTerm term)) }
    ensures is_input { IfOk result IsInput }
{
    if term.0 > TERM_LIMIT {
        return Err(NoMemory);
    }
    Ok(Input::Peer {
        from: Peer::Coordinator(CoordId(0)),
        body: Body::NewTerm { term },
    })
}

/// BecomeLeader as a replica takes it.
pub fn become_leader(alloc: Global, term: Term) -> Result<Input, NoMemory>
    ensures input { IfOk result (λ i. i ≡ input_is.Peer (peer.Coordinator 0) (lead_body term)) }
    ensures is_input { IfOk result IsInput }
{
    Ok(Input::Peer {
        from: Peer::Coordinator(CoordId(0)),
        body: leader_body(alloc, term)?,
    })
}

/// Tells that node 1 sends a message, and keeps it. It sends none to a node, since it is alone.
fn send_one(
    text: &mut Octets,
    letters: &mut List<Letter>,
    shard: u64,
    outgoing: Outgoing,
) -> Result<(), NoMemory>
    ensures text { OnOk result (text.new ≡ text.old ++ flat_map effect_line (sent_effects (length letters.old + 1) shard (outgoing ∷ []))) }
    ensures letters { OnOk result (messages_in letters.new ≡ messages_in letters.old ++ messages_of shard (outgoing ∷ [])) }
{
    let Outgoing { to, body } = outgoing;
    let Peer::Coordinator(coordinator) = to else {
        return Err(NoMemory);
    };
    let Some(number) = (letters.len() as u64).checked_add(1) else {
        return Err(NoMemory);
    };
    add_sent(text, number, Peer::Node(NodeId(1)), to, shard, &body)?;
    letters.push(Letter::ToCoordinator {
        to: coordinator,
        shard,
        body,
    })
}

/// Tells what node 1 sends, and keeps each message.
pub fn send_all(
    text: &mut Octets,
    letters: &mut List<Letter>,
    shard: u64,
    sends: List<Outgoing>,
) -> Result<(), NoMemory>
    ensures text { OnOk result (text.new ≡ text.old ++ flat_map effect_line (sent_effects (length letters.old + 1) shard sends)) }
    ensures letters { OnOk result (messages_in letters.new ≡ messages_in letters.old ++ messages_of shard sends) }
{
    for outgoing in sends.into_vec() {
        send_one(text, letters, shard, outgoing)?;
    }
    Ok(())
}
