// The bytes of what replicas and coordinators say to one another.
ghost use Rattle.std.specs.Prelude.{◌≡◌, ◌∷◌, ◌++◌, IsTrue};
ghost use Rattle.ox_bytes.specs.Reading.{Gives};
ghost use Rattle.ox_bytes.specs.Writing.{Puts};
ghost use Rattle.ox_bytes.specs.Numbers.{be64};
ghost use Rattle.ox_wire.specs.declared.body.Body.TheVariants as body_is;
ghost use Rattle.ox_wire.specs.BodyForms.{body as body_form, as_new_term, as_become_leader, as_add_follower, as_fenced, as_ready, as_refused, as_truncate, as_append, as_snapshot, as_ack, as_want};

use crate::body::{Asked, Body, Follower};
use crate::fields::append::{put_entries, take_entries};
use crate::fields::followers::{put_followers, take_followers};
use ox_bytes::{COUNT_LIMIT, Field, FieldFault, Reader, Writer};
use ox_quorum::Config;
use ox_types::{Chunk, Entry, Head, List, NoMemory, Refusal, Term, TermTable};

impl Field for Asked {
    ghost use Rattle.ox_wire.specs.BodyForms.{asked};
    ghost use Rattle.ox_wire.specs.BodyLaws.{asked_exact};

    ghost form = { asked };

    ghost exact = { asked_exact };

    #[tactic(auto, using(ox_bytes::specs::WritingLaws::fronts), unfolding(crate::specs::BodyForms::asked))]
    fn put(&self, to: &mut Writer) -> Result<(), NoMemory> {
        match self {
            Asked::NewTerm => to.put_u8(0),
            Asked::BecomeLeader => to.put_u8(1),
            Asked::AddFollower => to.put_u8(2),
        }
    }

    #[tactic(auto, unfolding(crate::specs::BodyForms::asked, ox_bytes::specs::Fields::choice_at))]
    fn read(from: &mut Reader<'_>) -> Result<Asked, FieldFault> {
        match from.take_tag(3)? {
            0 => Ok(Asked::NewTerm),
            1 => Ok(Asked::BecomeLeader),
            _ => Ok(Asked::AddFollower),
        }
    }
}

/// The byte of a kind of message, and its term.
#[tactic(auto, using(ox_bytes::specs::WritingLaws::fronts))]
fn put_front(kind: u8, term: Term, to: &mut Writer) -> Result<(), NoMemory>
    ensures { Puts result to.old to.new (kind ∷ be64 term) }
{
    to.put_u8(kind)?;
    to.put_u64(term.0)?;
    Ok(())
}

#[tactic(auto, using(ox_bytes::specs::WritingLaws::fronts), unfolding(crate::specs::BodyForms::body))]
fn put_become_leader(
    term: Term,
    config: &Config,
    followers: &List<Follower>,
    to: &mut Writer,
) -> Result<(), NoMemory>
    requires { IsTrue (body_form.is_lawful (body_is.BecomeLeader term config.now followers.now)) }
    ensures { Puts result to.old to.new (body_form.text (body_is.BecomeLeader term config.now followers.now)) }
{
    put_front(1, term, to)?;
    config.put(to)?;
    put_followers(followers, to)?;
    Ok(())
}

#[tactic(auto, using(ox_bytes::specs::WritingLaws::fronts), unfolding(crate::specs::BodyForms::body))]
fn put_add_follower(term: Term, follower: &Follower, to: &mut Writer) -> Result<(), NoMemory>
    requires { IsTrue (body_form.is_lawful (body_is.AddFollower term follower.now)) }
    ensures { Puts result to.old to.new (body_form.text (body_is.AddFollower term follower.now)) }
{
    put_front(2, term, to)?;
    follower.put(to)?;
    Ok(())
}

#[tactic(auto, using(ox_bytes::specs::WritingLaws::fronts), unfolding(crate::specs::BodyForms::body))]
fn put_fenced(term: Term, table: &TermTable, to: &mut Writer) -> Result<(), NoMemory>
    requires { IsTrue (body_form.is_lawful (body_is.Fenced term table.now)) }
    ensures { Puts result to.old to.new (body_form.text (body_is.Fenced term table.now)) }
{
    put_front(3, term, to)?;
    table.put(to)?;
    Ok(())
}

#[tactic(auto, using(ox_bytes::specs::WritingLaws::fronts), unfolding(crate::specs::BodyForms::body))]
fn put_refused(asked: Asked, term: Term, refusal: &Refusal, to: &mut Writer) -> Result<(), NoMemory>
    requires { IsTrue (body_form.is_lawful (body_is.Refused asked term refusal.now)) }
    ensures { Puts result to.old to.new (body_form.text (body_is.Refused asked term refusal.now)) }
{
    to.put_u8(5)?;
    asked.put(to)?;
    to.put_u64(term.0)?;
    refusal.put(to)?;
    Ok(())
}

#[tactic(auto, using(ox_bytes::specs::WritingLaws::fronts), unfolding(crate::specs::BodyForms::body, crate::specs::BodyForms::append))]
fn put_append(
    term: Term,
    offset: u64,
    commit: u64,
    entries: &List<Entry>,
    to: &mut Writer,
) -> Result<(), NoMemory>
    requires { IsTrue (body_form.is_lawful (body_is.Append term offset commit entries.now)) }
    ensures { Puts result to.old to.new (body_form.text (body_is.Append term offset commit entries.now)) }
{
    put_front(7, term, to)?;
    to.put_u64(offset)?;
    to.put_u64(commit)?;
    put_entries(entries, term, offset, to)?;
    Ok(())
}

#[tactic(auto, using(ox_bytes::specs::WritingLaws::fronts), unfolding(crate::specs::BodyForms::body))]
fn put_snapshot(chunk: &Chunk, to: &mut Writer) -> Result<(), NoMemory>
    requires { IsTrue (body_form.is_lawful (body_is.Snapshot chunk.now)) }
    ensures { Puts result to.old to.new (body_form.text (body_is.Snapshot chunk.now)) }
{
    to.put_u8(8)?;
    chunk.put(to)?;
    Ok(())
}

/// A message of this kind that says a term and a number of entries.
#[tactic(auto, using(ox_bytes::specs::WritingLaws::fronts))]
fn put_count(kind: u8, term: Term, count: u64, to: &mut Writer) -> Result<(), NoMemory>
    ensures { Puts result to.old to.new (kind ∷ be64 term ++ be64 count) }
{
    put_front(kind, term, to)?;
    to.put_u64(count)?;
    Ok(())
}

#[tactic(auto, using(ox_bytes::specs::WritingLaws::fronts), unfolding(crate::specs::BodyForms::body))]
fn put_want(term: Term, head: &Head, next: u32, to: &mut Writer) -> Result<(), NoMemory>
    requires { IsTrue (body_form.is_lawful (body_is.Want term head.now next)) }
    ensures { Puts result to.old to.new (body_form.text (body_is.Want term head.now next)) }
{
    put_front(10, term, to)?;
    head.put(to)?;
    to.put_u32(next)?;
    Ok(())
}

fn take_new_term(from: &mut Reader<'_>) -> Result<Body, FieldFault>
    ensures { Gives result from.new (as_new_term.at from.old) }
{
    let term = Field::take(from)?;
    Ok(Body::NewTerm { term })
}

fn take_become_leader(from: &mut Reader<'_>) -> Result<Body, FieldFault>
    ensures { Gives result from.new (as_become_leader.at from.old) }
{
    let term = Field::take(from)?;
    let config = Field::take(from)?;
    let followers = take_followers(from)?;
    Ok(Body::BecomeLeader {
        term,
        config,
        followers,
    })
}

fn take_add_follower(from: &mut Reader<'_>) -> Result<Body, FieldFault>
    ensures { Gives result from.new (as_add_follower.at from.old) }
{
    let term = Field::take(from)?;
    let follower = Field::take(from)?;
    Ok(Body::AddFollower { term, follower })
}

fn take_fenced(from: &mut Reader<'_>) -> Result<Body, FieldFault>
    ensures { Gives result from.new (as_fenced.at from.old) }
{
    let term = Field::take(from)?;
    let table = Field::take(from)?;
    Ok(Body::Fenced { term, table })
}

fn take_ready(from: &mut Reader<'_>) -> Result<Body, FieldFault>
    ensures { Gives result from.new (as_ready.at from.old) }
{
    let term = Field::take(from)?;
    Ok(Body::Ready { term })
}

fn take_refused(from: &mut Reader<'_>) -> Result<Body, FieldFault>
    ensures { Gives result from.new (as_refused.at from.old) }
{
    let asked = Field::take(from)?;
    let term = Field::take(from)?;
    let refusal = Field::take(from)?;
    Ok(Body::Refused {
        asked,
        term,
        refusal,
    })
}

fn take_truncate(from: &mut Reader<'_>) -> Result<Body, FieldFault>
    ensures { Gives result from.new (as_truncate.at from.old) }
{
    let term = Field::take(from)?;
    let count = from.take_u64_to(COUNT_LIMIT)?;
    Ok(Body::Truncate { term, count })
}

#[tactic(auto, unfolding(crate::specs::BodyForms::append))]
fn take_append(from: &mut Reader<'_>) -> Result<Body, FieldFault>
    ensures { Gives result from.new (as_append.at from.old) }
{
    let term: Term = Field::take(from)?;
    let offset = from.take_u64_to(COUNT_LIMIT)?;
    let commit = from.take_u64_to(COUNT_LIMIT)?;
    let entries = take_entries(from, term.0, offset)?;
    Ok(Body::Append {
        term,
        from: offset,
        commit,
        entries,
    })
}

fn take_snapshot(from: &mut Reader<'_>) -> Result<Body, FieldFault>
    ensures { Gives result from.new (as_snapshot.at from.old) }
{
    let chunk = Field::take(from)?;
    Ok(Body::Snapshot(chunk))
}

fn take_ack(from: &mut Reader<'_>) -> Result<Body, FieldFault>
    ensures { Gives result from.new (as_ack.at from.old) }
{
    let term = Field::take(from)?;
    let count = from.take_u64_to(COUNT_LIMIT)?;
    Ok(Body::Ack { term, count })
}

fn take_want(from: &mut Reader<'_>) -> Result<Body, FieldFault>
    ensures { Gives result from.new (as_want.at from.old) }
{
    let term = Field::take(from)?;
    let head = Field::take(from)?;
    let next = from.take_u32()?;
    Ok(Body::Want { term, head, next })
}

impl Field for Body {
    ghost use Rattle.ox_wire.specs.BodyForms.{body};
    ghost use Rattle.ox_wire.specs.BodyLaws.{body_exact};

    ghost form = { body };

    ghost exact = { body_exact };

    #[tactic(auto, using(ox_bytes::specs::WritingLaws::fronts))]
    fn put(&self, to: &mut Writer) -> Result<(), NoMemory> {
        match self {
            Body::NewTerm { term } => put_front(0, *term, to),
            Body::BecomeLeader {
                term,
                config,
                followers,
            } => put_become_leader(*term, config, followers, to),
            Body::AddFollower { term, follower } => put_add_follower(*term, follower, to),
            Body::Fenced { term, table } => put_fenced(*term, table, to),
            Body::Ready { term } => put_front(4, *term, to),
            Body::Refused {
                asked,
                term,
                refusal,
            } => put_refused(*asked, *term, refusal, to),
            Body::Truncate { term, count } => put_count(6, *term, *count, to),
            Body::Append {
                term,
                from,
                commit,
                entries,
            } => put_append(*term, *from, *commit, entries, to),
            Body::Snapshot(chunk) => put_snapshot(chunk, to),
            Body::Ack { term, count } => put_count(9, *term, *count, to),
            Body::Want { term, head, next } => put_want(*term, head, *next, to),
        }
    }

    #[tactic(auto, unfolding(crate::specs::BodyForms::body, ox_bytes::specs::Fields::choice_at))]
    fn read(from: &mut Reader<'_>) -> Result<Body, FieldFault> {
        match from.take_tag(11)? {
            0 => take_new_term(from),
            1 => take_become_leader(from),
            2 => take_add_follower(from),
            3 => take_fenced(from),
            4 => take_ready(from),
            5 => take_refused(from),
            6 => take_truncate(from),
            7 => take_append(from),
            8 => take_snapshot(from),
            9 => take_ack(from),
            _ => take_want(from),
        }
    }
}
