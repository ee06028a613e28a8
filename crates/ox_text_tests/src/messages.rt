// Messages of several nodes.
use ox_quorum::{Config, Ensemble};
use ox_report::add_sent;
use ox_types::{
    Chunk, CoordId, Entry, EntryBody, Head, List, NoMemory, NodeId, Octets, Peer, Refusal, Term,
    TermRun, TermTable,
};
use ox_wire::{Asked, Body, Follower};
use std::alloc::Global;

const TERM: Term = Term(2);

const HEAD: Head = Head {
    term: Term(1),
    count: 3,
};

/// The line of a message 5 from coordinator 0 to node 1 at shard 0.
fn add(out: &mut Octets, body: &Body) -> Result<(), NoMemory> {
    let from = Peer::Coordinator(CoordId(0));
    add_sent(out, 5, from, Peer::Node(NodeId(1)), 0, body)
}

fn add_numbers(out: &mut Octets) -> Result<(), NoMemory> {
    let refusal = Refusal::OldTerm {
        asked: TERM,
        has: Term(3),
    };
    let bodies = [
        Body::Truncate {
            term: TERM,
            count: 4,
        },
        Body::Ack {
            term: TERM,
            count: 5,
        },
        Body::Want {
            term: TERM,
            head: HEAD,
            next: 1,
        },
        Body::Refused {
            asked: Asked::NewTerm,
            term: TERM,
            refusal,
        },
    ];
    for body in bodies.iter() {
        add(out, body)?;
    }
    Ok(())
}

fn table(alloc: Global, runs: &[TermRun]) -> Result<TermTable, NoMemory> {
    let runs = List::from_vec(Vec::from_slice(alloc, runs)?);
    Ok(TermTable { base: HEAD, runs })
}

/// The heads of tables without a run, with one, and with one that has no bound.
fn add_tables(alloc: Global, out: &mut Octets) -> Result<(), NoMemory> {
    let cases: [&[TermRun]; 3] = [
        &[],
        &[
            TermRun {
                term: Term(1),
                last: 4,
            },
            TermRun {
                term: TERM,
                last: 6,
            },
        ],
        &[TermRun {
            term: TERM,
            last: u64::MAX,
        }],
    ];
    for runs in cases {
        let table = table(alloc, runs)?;
        add(out, &Body::Fenced { term: TERM, table })?;
    }
    Ok(())
}

fn follower(alloc: Global, node: u32) -> Result<Follower, NoMemory> {
    Ok(Follower {
        node: NodeId(node),
        table: table(alloc, &[])?,
    })
}

fn ensemble(alloc: Global, nodes: &[NodeId]) -> Result<Ensemble, NoMemory> {
    Ensemble::try_new(Vec::from_slice(alloc, nodes)?).map_err(|_| NoMemory)
}

/// A leader of two configs, which has two followers, and one more.
fn add_leaders(alloc: Global, out: &mut Octets) -> Result<(), NoMemory> {
    let before = ensemble(alloc, &[NodeId(1), NodeId(2), NodeId(3)])?;
    let behind = ensemble(alloc, &[NodeId(1), NodeId(4)])?;
    let mut followers = List::new(alloc);
    followers.push(follower(alloc, 2)?)?;
    followers.push(follower(alloc, 4)?)?;
    let config = Config::Joint(before, behind);
    add(
        out,
        &Body::BecomeLeader {
            term: TERM,
            config,
            followers,
        },
    )?;
    let follower = follower(alloc, 3)?;
    add(
        out,
        &Body::AddFollower {
            term: TERM,
            follower,
        },
    )
}

fn add_data(alloc: Global, out: &mut Octets) -> Result<(), NoMemory> {
    let mut entries = List::new(alloc);
    entries.push(Entry {
        term: TERM,
        offset: 4,
        time: 0,
        body: EntryBody::Pass,
    })?;
    add(
        out,
        &Body::Append {
            term: TERM,
            from: 4,
            commit: 3,
            entries,
        },
    )?;
    let piece = Chunk {
        term: TERM,
        head: HEAD,
        total: 9,
        index: 0,
        bytes: Octets::new(alloc),
    };
    add(out, &Body::Snapshot(piece))
}

pub fn add_messages(alloc: Global, out: &mut Octets) -> Result<(), NoMemory> {
    add_numbers(out)?;
    add_tables(alloc, out)?;
    add_leaders(alloc, out)?;
    add_data(alloc, out)
}
