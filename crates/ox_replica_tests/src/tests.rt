ghost use Rattle.std.specs.Prelude.{◌≤◌, IfOk};
ghost use Rattle.ox_types.specs.Limits.{term_limit};
ghost use Rattle.ox_solo_replica.specs.Inputs.{IsInput};

use ox_machine::Register;
use ox_memory::{Image, MemoryDisk};
use ox_quorum::{Config, Ensemble};
use ox_solo_replica::{Answered, Input, Outgoing, Output, Replica};
use ox_types::{CoordId, List, NodeId, Octets, Peer, Refusal, Seat, Term};
use ox_wire::{Asked, Body, Outcome};
use std::alloc::Global;
use std::test::Fail;

type Node = Replica<Register, MemoryDisk>;

const CHIEF: Peer = Peer::Coordinator(CoordId(4));

// Node 1 on these disks, with so many blocks.
fn recovered(alloc: Global, disks: (MemoryDisk, MemoryDisk), blocks: u32) -> Result<Node, Fail> {
    match Replica::recover(alloc, NodeId(1), disks.0, disks.1, blocks) {
        Ok(node) => Ok(node),
        Err((fault, _, _)) => Err(Fail::from(fault)),
    }
}

// Node 1 with nothing on its disks.
fn blank(alloc: Global, blocks: u32) -> Result<Node, Fail> {
    recovered(
        alloc,
        (MemoryDisk::sound(alloc)?, MemoryDisk::sound(alloc)?),
        blocks,
    )
}

// The node behind a crash that keeps no write that isn't synced.
fn crashed(alloc: Global, node: Node, blocks: u32) -> Result<Node, Fail> {
    let (mut first, mut second) = node.close();
    first.crash(Image::NoneKept);
    second.crash(Image::NoneKept);
    recovered(alloc, (first, second), blocks)
}

fn new_term(node: &mut Node, term: u64) -> Result<Output, Fail>
    requires { term ≤ term_limit }
{
    Ok(node.handle(Input::Peer {
        from: CHIEF,
        body: Body::NewTerm { term: Term(term) },
    })?)
}

fn become_leader(alloc: Global, node: &mut Node, term: u64) -> Result<Output, Fail> {
    let ensemble = Ensemble::try_new(Vec::from_slice(alloc, &[NodeId(1)])?)?;
    Ok(node.handle(Input::Peer {
        from: CHIEF,
        body: Body::BecomeLeader {
            term: Term(term),
            config: Config::One(ensemble),
            followers: List::new(alloc),
        },
    })?)
}

// A write that stores a number, as a client's request.
fn store(alloc: Global, tag: u64, to: u8) -> Result<Input, Fail>
    ensures { IfOk result (λ input. IsInput input) }
{
    Ok(Input::Client {
        tag,
        write: true,
        body: Octets::from_slice(alloc, &[0, 0, 0, 0, 0, 0, 0, 0, to])?,
    })
}

// A read, as a client's request.
fn ask(alloc: Global, tag: u64) -> Result<Input, Fail>
    ensures { IfOk result (λ input. IsInput input) }
{
    Ok(Input::Client {
        tag,
        write: false,
        body: Octets::from_slice(alloc, &[0])?,
    })
}

// Node 1 that leads term 1.
fn leader(alloc: Global, blocks: u32) -> Result<Node, Fail> {
    let mut node = blank(alloc, blocks)?;
    new_term(&mut node, 1)?;
    become_leader(alloc, &mut node, 1)?;
    Ok(node)
}

// Whether the only answer is this refusal, to this client.
fn is_refused(output: &Output, tag: u64, refusal: Refusal) -> bool {
    match output.replies.get(0) {
        Some(
            Answered {
                tag: to,
                outcome: Outcome::Refused(why),
            },
        ) => *to == tag && *why == refusal && output.replies.len() == 1,
        _ => false,
    }
}

// Whether the only answer is that this write is done, at this offset of term 1.
fn is_done(output: &Output, tag: u64, at: u64) -> bool {
    match output.replies.get(0) {
        Some(
            Answered {
                tag: to,
                outcome: Outcome::Ack {
                    term,
                    offset,
                    reply,
                },
            },
        ) => *to == tag
            && *term == Term(1)
            && *offset == at
            && reply.as_slice() == [0u8].as_slice(),
        _ => false,
    }
}

// Whether the only answer is this number, at so many committed entries of this term.
fn is_value(output: &Output, at: u64, count: u64, value: u64) -> bool {
    match output.replies.get(0) {
        Some(
            Answered {
                tag: _,
                outcome: Outcome::Read {
                    term,
                    prefix,
                    answer,
                },
            },
        ) => *term == Term(at)
            && *prefix == count
            && answer.as_slice() == value.to_be_bytes().as_slice(),
        _ => false,
    }
}

// Whether the only message is this refusal of what was asked in a term.
fn is_denied(output: &Output, what: Asked, at: u64, why: Refusal) -> bool {
    match output.sends.get(0) {
        Some(
            Outgoing {
                to: _,
                body: Body::Refused {
                    asked,
                    term,
                    refusal,
                },
            },
        ) => *asked == what && *term == Term(at) && *refusal == why,
        _ => false,
    }
}

// A leader with one write, and whether it was answered and read.
fn written(alloc: Global) -> Result<(Node, bool), Fail> {
    let mut node = leader(alloc, 8)?;
    let written = node.handle(store(alloc, 7, 5)?)?;
    let done = is_done(&written, 7, 1);
    let read = node.handle(ask(alloc, 8)?)?;
    let found = is_value(&read, 1, 2, 5);
    Ok((node, done && found))
}

// Whether it takes no request, and doesn't lead its term once more.
fn is_quiet(alloc: Global, node: &mut Node) -> Result<bool, Fail> {
    let read = node.handle(ask(alloc, 8)?)?;
    let why = Refusal::NotLeader {
        term: Term(1),
        hint: None,
    };
    let refused = is_refused(&read, 8, why);
    let again = become_leader(alloc, node, 1)?;
    let taken = Refusal::SeatTaken {
        term: Term(1),
        seat: Seat::Led,
    };
    let denied = is_denied(&again, Asked::BecomeLeader, 1, taken);
    Ok(refused && denied)
}

// Whether the number is read in the next term.
fn is_there(alloc: Global, node: &mut Node) -> Result<bool, Fail> {
    new_term(node, 2)?;
    become_leader(alloc, node, 2)?;
    let read = node.handle(ask(alloc, 9)?)?;
    Ok(is_value(&read, 2, 3, 5))
}

#[test]
fn a_write_is_there_behind_a_crash(rt: HostRuntime) -> Result<(), Fail> {
    let (node, said) = written(rt.alloc())?;
    assert!(rt; said);
    let mut node = crashed(rt.alloc(), node, 8)?;
    assert_eq!(rt; node.leads(), false);
    assert_eq!(rt; node.view().commit, 0);
    assert_eq!(rt; node.head().count, 2);
    let quiet = is_quiet(rt.alloc(), &mut node)?;
    assert!(rt; quiet);
    let there = is_there(rt.alloc(), &mut node)?;
    assert!(rt; there);
    Ok(())
}
