// Messages between replicas and coordinators.
ghost use Rattle.std.specs.Prelude.{◌≡◌, ◌++◌, ◌+◌, OnOk, codes, decimal};
ghost use Rattle.std.specs.List.{flat_map, join_by};
ghost use Rattle.ox_types.specs.Log.{table_head};
ghost use Rattle.ox_text.specs.Words.{behind_space, field};
ghost use Rattle.ox_report.specs.Refusal.{refusal_text};
ghost use Rattle.ox_report.specs.Message.{peer_text, head_text, nodes_text, config_text, asked_name, follower_text, followers_text, body_text};

use crate::refusal::write_refusal;
use itoa::Buffer;
use ox_quorum::Config;
use ox_text::{add_count, add_counts, add_field, add_joined, add_number};
use ox_types::{Chunk, Head, NoMemory, NodeId, Octets, Peer, Refusal, Term, TermTable};
use ox_wire::{Asked, Body, Follower};

// ---- names and heads

/// Who sends or takes a message, behind a space.
pub fn add_peer(text: &mut Octets, peer: Peer) -> Result<(), NoMemory>
    ensures { OnOk result (text.new ≡ text.old ++ behind_space (peer_text peer)) }
{
    match peer {
        Peer::Node(node) => add_joined(text, b" n", node.0 as u64),
        Peer::Coordinator(coordinator) => add_joined(text, b" c", coordinator.0 as u64),
    }
}

pub fn add_head(text: &mut Octets, head: Head) -> Result<(), NoMemory>
    ensures { OnOk result (text.new ≡ text.old ++ head_text head) }
{
    add_number(text, head.term.0)?;
    text.extend(b":")?;
    add_number(text, head.count)
}

/// The head behind a space.
fn add_spaced_head(text: &mut Octets, head: Head) -> Result<(), NoMemory>
    ensures { OnOk result (text.new ≡ text.old ++ behind_space (head_text head)) }
{
    text.extend(b" ")?;
    add_head(text, head)
}

/// The head of a log whose last entry has this term and offset. Its count may be 2^64.
fn add_end(text: &mut Octets, term: Term, last: u64) -> Result<(), NoMemory>
    ensures { OnOk result (text.new ≡ text.old ++ (decimal term ++ codes ":" ++ decimal (last + 1))) }
{
    add_number(text, term.0)?;
    text.extend(b":")?;
    text.extend(Buffer::new().format(last as u128 + 1).as_bytes())
}

/// The head of a log with this table.
fn add_table_head(text: &mut Octets, table: &TermTable) -> Result<(), NoMemory>
    ensures { OnOk result (text.new ≡ text.old ++ head_text (table_head table.now)) }
{
    match table.runs.as_slice() {
        [] => add_head(text, table.base),
        [.., run] => add_end(text, run.term, run.last),
    }
}

// ---- nodes

/// The nodes, each behind a comma.
fn add_other_nodes(text: &mut Octets, nodes: &[NodeId]) -> Result<(), NoMemory>
    ensures { OnOk result (text.new ≡ text.old ++ flat_map (λ n. codes "," ++ decimal n) nodes.now) }
{
    for node in nodes {
        add_joined(text, b",", node.0 as u64)?;
    }
    Ok(())
}

/// The nodes, with a comma between two.
fn add_joined_nodes(text: &mut Octets, nodes: &[NodeId]) -> Result<(), NoMemory>
    ensures { OnOk result (text.new ≡ text.old ++ join_by decimal (codes ",") nodes.now) }
{
    match nodes {
        [] => Ok(()),
        [first, others @ ..] => {
            add_number(text, first.0 as u64)?;
            add_other_nodes(text, others)
        }
    }
}

/// The nodes in braces.
fn add_nodes(text: &mut Octets, nodes: &[NodeId]) -> Result<(), NoMemory>
    ensures { OnOk result (text.new ≡ text.old ++ nodes_text nodes.now) }
{
    text.extend(b"{")?;
    add_joined_nodes(text, nodes)?;
    text.extend(b"}")
}

fn add_config(text: &mut Octets, config: &Config) -> Result<(), NoMemory>
    ensures { OnOk result (text.new ≡ text.old ++ config_text config.now) }
{
    match config {
        Config::One(ensemble) => add_nodes(text, ensemble.nodes()),
        Config::Joint(before, behind) => {
            add_nodes(text, before.nodes())?;
            text.extend(b"+")?;
            add_nodes(text, behind.nodes())
        }
    }
}

/// The nodes of the followers, each behind a comma.
fn add_other_followers(text: &mut Octets, followers: &[Follower]) -> Result<(), NoMemory>
    ensures { OnOk result (text.new ≡ text.old ++ flat_map (λ f. codes "," ++ follower_text f) followers.now) }
{
    for follower in followers {
        add_joined(text, b",", follower.node.0 as u64)?;
    }
    Ok(())
}

/// The nodes of the followers, with a comma between two.
fn add_joined_followers(text: &mut Octets, followers: &[Follower]) -> Result<(), NoMemory>
    ensures { OnOk result (text.new ≡ text.old ++ join_by follower_text (codes ",") followers.now) }
{
    match followers {
        [] => Ok(()),
        [first, others @ ..] => {
            add_number(text, first.node.0 as u64)?;
            add_other_followers(text, others)
        }
    }
}

/// The nodes of the followers in braces.
fn add_followers(text: &mut Octets, followers: &[Follower]) -> Result<(), NoMemory>
    ensures { OnOk result (text.new ≡ text.old ++ followers_text followers.now) }
{
    text.extend(b"{")?;
    add_joined_followers(text, followers)?;
    text.extend(b"}")
}

// ---- messages

/// A word and a term.
fn add_term(text: &mut Octets, word: &[u8], term: Term) -> Result<(), NoMemory>
    ensures { OnOk result (text.new ≡ text.old ++ (word.now ++ field term)) }
{
    add_count(text, word, term.0)
}

/// A word, a term and a number.
fn add_term_count(text: &mut Octets, word: &[u8], term: Term, count: u64) -> Result<(), NoMemory>
    ensures { OnOk result (text.new ≡ text.old ++ (word.now ++ field term ++ field count)) }
{
    add_counts(text, word, term.0, count)
}

/// A word, a term and a node.
fn add_term_node(text: &mut Octets, word: &[u8], term: Term, node: NodeId) -> Result<(), NoMemory>
    ensures { OnOk result (text.new ≡ text.old ++ (word.now ++ field term ++ field node)) }
{
    add_counts(text, word, term.0, node.0 as u64)
}

fn add_become_leader(
    text: &mut Octets,
    term: Term,
    config: &Config,
    followers: &[Follower],
) -> Result<(), NoMemory>
    ensures { OnOk result (text.new ≡ text.old ++ (codes "BecomeLeader" ++ field term ++ behind_space (config_text config.now) ++ behind_space (followers_text followers.now))) }
{
    add_term(text, b"BecomeLeader", term)?;
    text.extend(b" ")?;
    add_config(text, config)?;
    text.extend(b" ")?;
    add_followers(text, followers)
}

fn add_fenced(text: &mut Octets, term: Term, table: &TermTable) -> Result<(), NoMemory>
    ensures { OnOk result (text.new ≡ text.old ++ (codes "Fenced" ++ field term ++ behind_space (head_text (table_head table.now)))) }
{
    add_term(text, b"Fenced", term)?;
    text.extend(b" ")?;
    add_table_head(text, table)
}

/// What a coordinator had asked, behind a space.
fn add_asked(text: &mut Octets, asked: Asked) -> Result<(), NoMemory>
    ensures { OnOk result (text.new ≡ text.old ++ behind_space (asked_name asked)) }
{
    match asked {
        Asked::NewTerm => text.extend(b" NewTerm"),
        Asked::BecomeLeader => text.extend(b" BecomeLeader"),
        Asked::AddFollower => text.extend(b" AddFollower"),
    }
}

fn add_refused(
    text: &mut Octets,
    asked: Asked,
    term: Term,
    refusal: &Refusal,
) -> Result<(), NoMemory>
    ensures { OnOk result (text.new ≡ text.old ++ (codes "Refused" ++ behind_space (asked_name asked) ++ field term ++ behind_space (refusal_text refusal.now))) }
{
    text.extend(b"Refused")?;
    add_asked(text, asked)?;
    add_field(text, term.0)?;
    text.extend(b" ")?;
    write_refusal(text, refusal)
}

fn add_append(
    text: &mut Octets,
    term: Term,
    from: u64,
    commit: u64,
    count: u64,
) -> Result<(), NoMemory>
    ensures { OnOk result (text.new ≡ text.old ++ (codes "Append" ++ field term ++ field from ++ field commit ++ field count)) }
{
    add_counts(text, b"Append", term.0, from)?;
    add_field(text, commit)?;
    add_field(text, count)
}

fn add_piece(text: &mut Octets, piece: &Chunk) -> Result<(), NoMemory>
    ensures { OnOk result (text.new ≡ text.old ++ (codes "Snapshot" ++ field piece.now.term ++ behind_space (head_text piece.now.head) ++ field piece.now.total ++ field piece.now.index)) }
{
    add_term(text, b"Snapshot", piece.term)?;
    add_spaced_head(text, piece.head)?;
    add_field(text, piece.total)?;
    add_field(text, piece.index as u64)
}

fn add_want(text: &mut Octets, term: Term, head: Head, next: u32) -> Result<(), NoMemory>
    ensures { OnOk result (text.new ≡ text.old ++ (codes "Want" ++ field term ++ behind_space (head_text head) ++ field next)) }
{
    add_term(text, b"Want", term)?;
    add_spaced_head(text, head)?;
    add_field(text, next as u64)
}

/// The kind and the fields of a message.
pub fn add_body(text: &mut Octets, body: &Body) -> Result<(), NoMemory>
    ensures { OnOk result (text.new ≡ text.old ++ body_text body.now) }
{
    match body {
        Body::NewTerm { term } => add_term(text, b"NewTerm", *term),
        Body::BecomeLeader {
            term,
            config,
            followers,
        } => add_become_leader(text, *term, config, followers.as_slice()),
        Body::AddFollower { term, follower } => add_term_node(
            text,
            b"AddFollower",
            *term,
            follower.node,
        ),
        Body::Fenced { term, table } => add_fenced(text, *term, table),
        Body::Ready { term } => add_term(text, b"Ready", *term),
        Body::Refused {
            asked,
            term,
            refusal,
        } => add_refused(text, *asked, *term, refusal),
        Body::Truncate { term, count } => add_term_count(text, b"Truncate", *term, *count),
        Body::Append {
            term,
            from,
            commit,
            entries,
        } => add_append(text, *term, *from, *commit, entries.len() as u64),
        Body::Snapshot(piece) => add_piece(text, piece),
        Body::Ack { term, count } => add_term_count(text, b"Ack", *term, *count),
        Body::Want { term, head, next } => add_want(text, *term, *head, *next),
    }
}
