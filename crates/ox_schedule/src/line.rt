// Requests and lines.
ghost use Rattle.std.specs.Prelude.{◌≡◌, ◌==◌, ℕ, List, map, IfOk};
ghost use Rattle.std.specs.List.{list_all};
ghost use Rattle.ox_ops.specs.declared.write.ShardCommand.TheVariants as command;
ghost use Rattle.ox_schedule.specs.declared.schedule.Grouping.TheVariants as grouping;
ghost use Rattle.ox_schedule.specs.declared.schedule.Request.TheVariants.{Write};
ghost use Rattle.ox_schedule.specs.Outcome.{Gives};
ghost use Rattle.ox_schedule.specs.Shape.{ops_in};
ghost use Rattle.ox_schedule.specs.Spelling.{words_of, is_printable, is_word as is_word_text};
ghost use Rattle.ox_schedule.specs.Reading.{empty_batch, op_onto, ops_onto, batch_of, alone_of, request_of, line_at};

use crate::event::read_event;
use crate::fault::LineFault;
use crate::field::{
    read_delete, read_ends, read_get, read_notices, read_put, read_range, read_single,
};
use crate::schedule::{Grouping, Places, Request};
use crate::shape::{first_op, is_event};
use crate::word::{is, next_word};
use ox_ops::{ShardCommand, ShardQuery, WriteBatch};
use ox_types::{LineRule, List, NoMemory};
use ox_wire::Event;
use std::alloc::Global;

/// A batch of no operations, to which they are added.
fn new_batch(alloc: Global) -> WriteBatch
    ensures { result ≡ empty_batch }
{
    WriteBatch {
        puts: List::new(alloc),
        deletes: List::new(alloc),
        ranges: List::new(alloc),
    }
}

/// The batch with the operation behind its own, unless that stands out of order.
#[tactic(auto, unfolding(crate::specs::Reading::op_onto))]
fn with_op(alloc: Global, batch: WriteBatch, words: &[&[u8]]) -> Result<WriteBatch, LineFault>
    ensures { Gives (λ x. x) result (op_onto batch (map (λ w. w.now) words.now)) }
{
    let WriteBatch {
        mut puts,
        mut deletes,
        mut ranges,
    } = batch;
    let (verb, rest) = next_word(words)?;
    if is(verb, b"put") {
        if !deletes.is_empty() || !ranges.is_empty() {
            return Err(LineFault::Rule(LineRule::Order));
        }
        puts.push(read_put(alloc, rest)?)?;
    } else if is(verb, b"delete") {
        if !ranges.is_empty() {
            return Err(LineFault::Rule(LineRule::Order));
        }
        deletes.push(read_delete(alloc, rest)?)?;
    } else if is(verb, b"deleterange") {
        ranges.push(read_range(alloc, rest)?)?;
    } else {
        return Err(LineFault::Rule(LineRule::Word));
    }
    Ok(WriteBatch {
        puts,
        deletes,
        ranges,
    })
}

#[tactic(auto, unfolding(crate::specs::Reading::batch_of))]
fn read_batch(alloc: Global, words: &[&[u8]]) -> Result<WriteBatch, LineFault>
    ensures { Gives (λ x. x) result (batch_of (map (λ w. w.now) words.now)) }
{
    let mut batch = new_batch(alloc);
    let mut left = Some(words);
    'ops: while let Some(words) = left {
        let (op, more) = first_op(words);
        batch = with_op(alloc, batch, op)?;
        left = more;
    }
    Ok(batch)
}

fn write_request(grouping: Grouping, batch: WriteBatch) -> Request
    ensures { result ≡ Write grouping (command.Write batch) }
{
    let command = ShardCommand::Write(batch);
    Request::Write { grouping, command }
}

fn session_request(command: ShardCommand) -> Request
    ensures { result ≡ Write grouping.Alone command }
{
    let grouping = Grouping::Alone;
    Request::Write { grouping, command }
}

#[tactic(auto, unfolding(crate::specs::Reading::alone_of))]
fn read_alone(alloc: Global, words: &[&[u8]]) -> Result<Request, LineFault>
    ensures { Gives (λ x. x) result (alone_of (map (λ w. w.now) words.now)) }
{
    let (verb, rest) = next_word(words)?;
    if is(verb, b"notices") {
        return Ok(Request::Read(read_notices(rest)?));
    }
    if is(verb, b"open") {
        let timeout = read_single(rest)?;
        return Ok(session_request(ShardCommand::Open { timeout }));
    }
    if is(verb, b"close") {
        let session = read_single(rest)?;
        return Ok(session_request(ShardCommand::Close { session }));
    }
    if is(verb, b"keep") {
        let session = read_single(rest)?;
        return Ok(Request::Read(ShardQuery::KeepAlive { session }));
    }
    let batch = with_op(alloc, new_batch(alloc), words)?;
    Ok(write_request(Grouping::Alone, batch))
}

/// The request that words say.
#[tactic(auto, unfolding(crate::specs::Reading::request_of))]
pub fn read_request(alloc: Global, words: &[&[u8]]) -> Result<Request, LineFault>
    ensures { Gives (λ x. x) result (request_of (map (λ w. w.now) words.now)) }
{
    let (verb, rest) = next_word(words)?;
    if is(verb, b"batch") {
        return Ok(write_request(Grouping::Batch, read_batch(alloc, rest)?));
    }
    if is(verb, b"get") {
        return Ok(Request::Read(read_get(alloc, rest)?));
    }
    if is(verb, b"list") {
        let (range, by) = read_ends(alloc, rest)?;
        return Ok(Request::Read(ShardQuery::List { range, by }));
    }
    if is(verb, b"scan") {
        let (range, by) = read_ends(alloc, rest)?;
        return Ok(Request::Read(ShardQuery::Scan { range, by }));
    }
    read_alone(alloc, words)
}

fn is_printable_text(text: &[u8]) -> bool
    ensures { result ≡ list_all is_printable text.now }
{
    text.iter().all(|b| *b >= 33 && *b <= 126)
}

fn is_word(word: &[u8]) -> bool
    ensures { result ≡ is_word_text word.now }
{
    !word.is_empty() && is_printable_text(word)
}

fn each_is_word(words: &[&[u8]]) -> bool
    ensures { result ≡ list_all (λ w. is_word_text w.now) words.now }
{
    words.iter().all(|word| is_word(word))
}

pub fn are_words(words: &[&[u8]]) -> bool
    ensures { result ≡ list_all is_word_text (map (λ w. w.now) words.now) }
{
    each_is_word(words)
}

pub fn split_words(alloc: Global, line: &[u8]) -> Result<Vec<&[u8]>, NoMemory>
    ensures { IfOk result (λ words. map (λ w. w.now) words.items ≡ words_of line.now) }
{
    Ok(line.split(|b| *b == b' ').collect(alloc)?)
}

/// The event that a line spells, or the first rule that it breaks.
#[tactic(auto, unfolding(crate::specs::Reading::line_at))]
pub fn read_line(alloc: Global, places: Places, line: &[u8]) -> Result<Event<Request>, LineFault>
    ensures { Gives (λ x. x) result (line_at places line.now) }
{
    if line.is_empty() {
        return Err(LineFault::Rule(LineRule::Word));
    }
    let words = split_words(alloc, line)?;
    if !are_words(&words) {
        return Err(LineFault::Rule(LineRule::Bytes));
    }
    if !is_event(&words) {
        return Err(LineFault::Rule(LineRule::Word));
    }
    read_event(alloc, places, &words)
}
