// What is seen of an event, a line each.
ghost use Rattle.std.specs.Prelude.{◌≡◌, ◌++◌, ◌∷◌, [], OnOk, codes, decimal};
ghost use Rattle.std.specs.List.{flat_map, join_by};
ghost use Rattle.ox_wire.specs.Effects.{Effect as effect};
ghost use Rattle.ox_wire.specs.Effects.{kept_effects};
ghost use Rattle.ox_report.specs.Refusal.{seat_name};
ghost use Rattle.ox_report.specs.Message.{head_text};
ghost use Rattle.ox_report.specs.Effect.{reply_text_in, answer_text_in, outcome_text, act_text, kept_text, effect_text, effect_line};
ghost use Rattle.ox_wire.specs.declared.message.Outcome.TheVariants as outcome_is;

use crate::answer::write_answer;
use crate::message::{add_body, add_head, add_peer};
use crate::refusal::{add_seat_name, write_refusal};
use crate::reply::write_replies;
use ox_ops::{decode_answer, decode_reply};
use ox_text::{add_count, add_counts, add_field, add_joined};
use ox_types::{Head, KeptAs, MachineFault, NoMemory, Octets, Peer, Refusal, Seat, Term};
use ox_wire::{Body, Outcome};
use std::alloc::Global;

// ---- words alone

/// A line of one word.
fn add_word_line(text: &mut Octets, word: &[u8]) -> Result<(), NoMemory>
    ensures { OnOk result (text.new ≡ text.old ++ (codes "  " ++ word.now ++ 10 ∷ [])) }
{
    text.extend(b"  ")?;
    text.extend(word)?;
    text.extend(b"\n")
}

/// The line of an actor that isn't up. Where memory runs out, a part of it may be there, as with each line here.
pub fn add_down(text: &mut Octets) -> Result<(), NoMemory>
    ensures { OnOk result (text.new ≡ text.old ++ effect_line effect.Down) }
{
    add_word_line(text, b"down")
}

/// The line of a message that was never sent.
pub fn add_unknown(text: &mut Octets) -> Result<(), NoMemory>
    ensures { OnOk result (text.new ≡ text.old ++ effect_line effect.Unknown) }
{
    add_word_line(text, b"unknown")
}

/// The line of a start, stop or loss that has no meaning where it comes.
pub fn add_ignored(text: &mut Octets) -> Result<(), NoMemory>
    ensures { OnOk result (text.new ≡ text.old ++ effect_line effect.Ignored) }
{
    add_word_line(text, b"ignored")
}

/// The line of an actor that went down within its step.
pub fn add_was_cut(text: &mut Octets) -> Result<(), NoMemory>
    ensures { OnOk result (text.new ≡ text.old ++ effect_line effect.WasCut) }
{
    add_word_line(text, b"cut")
}

/// The line of a step that was over before it could be cut.
pub fn add_whole(text: &mut Octets) -> Result<(), NoMemory>
    ensures { OnOk result (text.new ≡ text.old ++ effect_line effect.Whole) }
{
    add_word_line(text, b"whole")
}

// ---- arrivals and replicas

/// The line of a request by its number, counted from 1.
pub fn add_arrival(text: &mut Octets, number: u64) -> Result<(), NoMemory>
    ensures { OnOk result (text.new ≡ text.old ++ effect_line (effect.Arrival number)) }
{
    text.extend(b"  ")?;
    add_count(text, b"arrival", number)?;
    text.extend(b"\n")
}

/// The seat and the head, each behind its name.
fn add_seat_and_head(text: &mut Octets, seat: Seat, head: Head) -> Result<(), NoMemory>
    ensures { OnOk result (text.new ≡ text.old ++ (codes " seat=" ++ seat_name seat ++ codes " head=" ++ head_text head)) }
{
    text.extend(b" seat=")?;
    add_seat_name(text, seat)?;
    text.extend(b" head=")?;
    add_head(text, head)
}

fn write_opened(
    text: &mut Octets,
    shard: u64,
    term: u64,
    seat: Seat,
    head: Head,
) -> Result<(), NoMemory>
    ensures { OnOk result (text.new ≡ text.old ++ effect_text (effect.Opened shard term seat head)) }
{
    add_count(text, b"opened", shard)?;
    add_joined(text, b" term=", term)?;
    add_seat_and_head(text, seat, head)
}

/// The line of a replica that a start opened: its shard, term and seat, and the head of its log.
pub fn add_opened(
    text: &mut Octets,
    shard: u64,
    term: u64,
    seat: Seat,
    head: Head,
) -> Result<(), NoMemory>
    ensures { OnOk result (text.new ≡ text.old ++ effect_line (effect.Opened shard term seat head)) }
{
    text.extend(b"  ")?;
    write_opened(text, shard, term, seat, head)?;
    text.extend(b"\n")
}

// ---- what is kept

/// A word and a term, with nothing between them.
fn add_joined_term(text: &mut Octets, word: &[u8], term: Term) -> Result<(), NoMemory>
    ensures { OnOk result (text.new ≡ text.old ++ (word.now ++ decimal term)) }
{
    add_joined(text, word, term.0)
}

fn add_act(text: &mut Octets, act: KeptAs) -> Result<(), NoMemory>
    ensures { OnOk result (text.new ≡ text.old ++ act_text act) }
{
    match act {
        KeptAs::Term(term) => add_joined_term(text, b"term=", term),
        KeptAs::Attach { count } => add_joined(text, b"attach=", count),
        KeptAs::Lead => text.extend(b"lead"),
        KeptAs::Append { entries } => add_joined(text, b"append=", entries as u64),
        KeptAs::Install { head } => {
            text.extend(b"install=")?;
            add_head(text, head)
        }
        KeptAs::Rebase { count } => add_joined(text, b"rebase=", count),
    }
}

/// The acts, each behind a comma.
fn add_other_acts(text: &mut Octets, acts: &[KeptAs]) -> Result<(), NoMemory>
    ensures { OnOk result (text.new ≡ text.old ++ flat_map (λ a. codes "," ++ act_text a) acts.now) }
{
    for act in acts {
        text.extend(b",")?;
        add_act(text, *act)?;
    }
    Ok(())
}

/// The acts, with a comma between two.
fn add_acts(text: &mut Octets, acts: &[KeptAs]) -> Result<(), NoMemory>
    ensures { OnOk result (text.new ≡ text.old ++ join_by act_text (codes ",") acts.now) }
{
    match acts {
        [] => Ok(()),
        [first, others @ ..] => {
            add_act(text, *first)?;
            add_other_acts(text, others)
        }
    }
}

fn write_kept(text: &mut Octets, acts: &[KeptAs], head: Head) -> Result<(), NoMemory>
    ensures { OnOk result (text.new ≡ text.old ++ kept_text acts.now head) }
{
    text.extend(b"kept ")?;
    add_acts(text, acts)?;
    text.extend(b" head=")?;
    add_head(text, head)
}

fn add_batch(text: &mut Octets, acts: &[KeptAs], head: Head) -> Result<(), NoMemory>
    ensures { OnOk result (text.new ≡ text.old ++ effect_line (effect.Kept acts.now head)) }
{
    text.extend(b"  ")?;
    write_kept(text, acts, head)?;
    text.extend(b"\n")
}

/// The line of a batch that is durable, with the head of the log behind it, and nothing where the batch is empty.
pub fn add_kept(text: &mut Octets, acts: &[KeptAs], head: Head) -> Result<(), NoMemory>
    ensures { OnOk result (text.new ≡ text.old ++ flat_map effect_line (kept_effects acts.now head)) }
{
    match acts {
        [] => Ok(()),
        [..] => add_batch(text, acts, head),
    }
}

// ---- messages

fn write_sent(
    text: &mut Octets,
    number: u64,
    from: Peer,
    to: Peer,
    shard: u64,
    body: &Body,
) -> Result<(), NoMemory>
    ensures { OnOk result (text.new ≡ text.old ++ effect_text (effect.Sent number from to shard body.now)) }
{
    add_count(text, b"sent", number)?;
    add_peer(text, from)?;
    add_peer(text, to)?;
    add_field(text, shard)?;
    text.extend(b" ")?;
    add_body(text, body)
}

/// The line of a message by its number, counted from 1: who sends and who takes it, its shard, its kind and its fields.
pub fn add_sent(
    text: &mut Octets,
    number: u64,
    from: Peer,
    to: Peer,
    shard: u64,
    body: &Body,
) -> Result<(), NoMemory>
    ensures { OnOk result (text.new ≡ text.old ++ effect_line (effect.Sent number from to shard body.now)) }
{
    text.extend(b"  ")?;
    write_sent(text, number, from, to, shard, body)?;
    text.extend(b"\n")
}

// ---- answers

/// The replies that the bytes spell, and nothing where they spell none.
fn add_reply_in(alloc: Global, text: &mut Octets, bytes: &[u8]) -> Result<(), NoMemory>
    ensures { OnOk result (text.new ≡ text.old ++ reply_text_in bytes.now) }
{
    match decode_reply(alloc, bytes) {
        Ok(reply) => write_replies(alloc, text, &reply),
        Err(MachineFault::NoMemory) => Err(NoMemory),
        Err(MachineFault::BadBytes { .. }) => Ok(()),
    }
}

/// The answer that the bytes spell, and nothing where they spell none.
fn add_answer_in(alloc: Global, text: &mut Octets, bytes: &[u8]) -> Result<(), NoMemory>
    ensures { OnOk result (text.new ≡ text.old ++ answer_text_in bytes.now) }
{
    match decode_answer(alloc, bytes) {
        Ok(answer) => write_answer(alloc, text, &answer),
        Err(MachineFault::NoMemory) => Err(NoMemory),
        Err(MachineFault::BadBytes { .. }) => Ok(()),
    }
}

fn add_ack(
    alloc: Global,
    text: &mut Octets,
    arrival: u64,
    term: Term,
    offset: u64,
    reply: &[u8],
) -> Result<(), NoMemory>
    ensures { OnOk result (text.new ≡ text.old ++ outcome_text arrival (outcome_is.Ack term offset reply.now)) }
{
    add_counts(text, b"ack", arrival, term.0)?;
    add_field(text, offset)?;
    text.extend(b" ")?;
    add_reply_in(alloc, text, reply)
}

fn add_read(
    alloc: Global,
    text: &mut Octets,
    arrival: u64,
    term: Term,
    prefix: u64,
    answer: &[u8],
) -> Result<(), NoMemory>
    ensures { OnOk result (text.new ≡ text.old ++ outcome_text arrival (outcome_is.Read term prefix answer.now)) }
{
    add_counts(text, b"read", arrival, term.0)?;
    add_field(text, prefix)?;
    text.extend(b" ")?;
    add_answer_in(alloc, text, answer)
}

fn add_refused(text: &mut Octets, arrival: u64, refusal: &Refusal) -> Result<(), NoMemory>
    ensures { OnOk result (text.new ≡ text.old ++ outcome_text arrival (outcome_is.Refused refusal.now)) }
{
    add_count(text, b"refuse", arrival)?;
    text.extend(b" ")?;
    write_refusal(text, refusal)
}

fn write_outcome(
    alloc: Global,
    text: &mut Octets,
    arrival: u64,
    outcome: &Outcome,
) -> Result<(), NoMemory>
    ensures { OnOk result (text.new ≡ text.old ++ outcome_text arrival outcome.now) }
{
    match outcome {
        Outcome::Ack {
            term,
            offset,
            reply,
        } => add_ack(alloc, text, arrival, *term, *offset, reply.as_slice()),
        Outcome::Read {
            term,
            prefix,
            answer,
        } => add_read(alloc, text, arrival, *term, *prefix, answer.as_slice()),
        Outcome::Refused(refusal) => add_refused(text, arrival, refusal),
    }
}

/// The line of what became of an arrival: its acknowledgement with the replies that its bytes spell, its answer, or its
/// refusal. It costs the text, and the value that the bytes spell.
pub fn add_answered(
    alloc: Global,
    text: &mut Octets,
    arrival: u64,
    outcome: &Outcome,
) -> Result<(), NoMemory>
    ensures { OnOk result (text.new ≡ text.old ++ effect_line (effect.Answered arrival outcome.now)) }
{
    text.extend(b"  ")?;
    write_outcome(alloc, text, arrival, outcome)?;
    text.extend(b"\n")
}
