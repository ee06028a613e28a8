// Texts of a report that no run of one node has.
use ox_ops::OpReply;
use ox_report::{add_answered, add_kept, add_refusal, add_reply};
use ox_types::{
    Bad, Head, KeptAs, NoMemory, NodeId, Octets, Part, Refusal, Rule, Seat, ShardId, Term,
};
use ox_wire::Outcome;
use std::alloc::Global;

fn add_refusals(alloc: Global, out: &mut Octets) -> Result<(), NoMemory> {
    let (term, has) = (Term(2), Term(3));
    let hint = Some(NodeId(3));
    let seat = Seat::Attached;
    let (part, index, rule) = (Part::Session, 0, Rule::Timeout);
    let refusals = [
        Refusal::OldTerm { asked: term, has },
        Refusal::UnknownTerm {
            asked: has,
            has: term,
        },
        Refusal::SeatTaken { term, seat },
        Refusal::NotLeader { term, hint },
        Refusal::Recovering {
            term,
            begin: 4,
            commit: 1,
        },
        Refusal::TooManyPending { limit: 7 },
        Refusal::LogSpent {
            count: 9_007_199_254_740_992,
        },
        Refusal::LeaderGone { term, by: has },
        Refusal::BadRequest(Bad { part, index, rule }),
        Refusal::NoSuchShard {
            asked: ShardId(2),
            shards: 2,
        },
    ];
    for refusal in refusals {
        add_refusal(alloc, out, &refusal)?;
        out.extend(b"\n")?;
    }
    Ok(())
}

/// The head of a log of 5 entries, the last of term 2.
const HEAD: Head = Head {
    term: Term(2),
    count: 5,
};

/// The head of a saved state of 3 entries.
const SAVED: Head = Head {
    term: Term(1),
    count: 3,
};

/// Batches that leave a log whose head is `HEAD`.
fn add_batches(out: &mut Octets) -> Result<(), NoMemory> {
    let attached = [
        KeptAs::Term(Term(2)),
        KeptAs::Attach { count: 4 },
        KeptAs::Lead,
        KeptAs::Append { entries: 1 },
    ];
    let moved = [KeptAs::Install { head: SAVED }, KeptAs::Rebase { count: 5 }];
    add_kept(out, &attached, HEAD)?;
    add_kept(out, &moved, HEAD)?;
    add_kept(out, &[], HEAD)
}

/// A reply and an answer of bytes that say none, and a shard that is full.
fn add_others(alloc: Global, out: &mut Octets) -> Result<(), NoMemory> {
    let term = Term(2);
    let reply = Octets::from_slice(alloc, &[0, 0, 0, 2, 1])?;
    add_answered(
        alloc,
        out,
        1,
        &Outcome::Ack {
            term,
            offset: 4,
            reply,
        },
    )?;
    let answer = Octets::from_slice(alloc, &[9])?;
    add_answered(
        alloc,
        out,
        2,
        &Outcome::Read {
            term,
            prefix: 5,
            answer,
        },
    )?;
    add_reply(
        alloc,
        out,
        &OpReply::ShardFull {
            weight: 9,
            limit: 8,
        },
    )?;
    out.extend(b"\n")
}

pub fn add_texts(alloc: Global, out: &mut Octets) -> Result<(), NoMemory> {
    add_refusals(alloc, out)?;
    add_batches(out)?;
    add_others(alloc, out)
}
