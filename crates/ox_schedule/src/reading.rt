// The lines of a schedule.
ghost use Rattle.std.specs.Prelude.{◌≡◌, ◌<◌, ◌≤◌, ◌∷◌, ◌==◌, Ok, length, map, position, IfOk, IfErr};
ghost use Rattle.ox_schedule.specs.declared.schedule.Schedule.{Schedule};
ghost use Rattle.ox_schedule.specs.Outcome.{Gives};
ghost use Rattle.ox_schedule.specs.Reading.{line_at};
ghost use Rattle.ox_schedule.specs.Schedule.{Answers, SpellsSchedule, IsFaultOf, at_line, events_at, shard_count_of, block_count_of, solo_of, first_of, first_at, lines_of, places_of, schedule_at};

use crate::fault::{LineFault, ScheduleFault};
use crate::line::{are_words, read_line, split_words};
use crate::schedule::{First, Places, Request, Schedule};
use crate::word::{first_word, is, read_number};
use ox_types::{LineRule, List};
use ox_wire::Event;
use std::alloc::Global;

fn line_feed_place(text: &[u8]) -> Option<usize>
    ensures { result ≡ position (λ b. b == 10) text.now }
{
    text.iter().position(|b| *b == b'\n')
}

/// The first line of a text, and what follows it.
fn first_line(text: &[u8]) -> (&[u8], &[u8])
    requires { 0 < length text.now }
    ensures lines { lines_of text.now ≡ result.0.now ∷ lines_of result.1.now }
    ensures shorter { length result.1.now < length text.now }
{
    match line_feed_place(text) {
        Some(at) => (&text[..at], &text[at + 1..]),
        None => (text, &[]),
    }
}

#[tactic(auto, unfolding(crate::specs::Schedule::shard_count_of))]
fn read_shard_count(word: &[u8]) -> Result<u64, LineFault>
    ensures { Gives (λ n. n) result (shard_count_of word.now) }
{
    let shards = read_number(word)?;
    if shards != 1 {
        return Err(LineFault::Rule(LineRule::Number));
    }
    Ok(shards)
}

#[tactic(auto, unfolding(crate::specs::Schedule::block_count_of))]
fn read_block_count(word: &[u8]) -> Result<u64, LineFault>
    ensures { Gives (λ n. n) result (block_count_of word.now) }
{
    let blocks = read_number(word)?;
    if blocks < 8 || blocks > 65_536 {
        return Err(LineFault::Rule(LineRule::Number));
    }
    Ok(blocks)
}

#[tactic(auto, unfolding(crate::specs::Schedule::solo_of))]
fn read_solo(words: &[&[u8]]) -> Result<First, LineFault>
    ensures { Gives (λ x. x) result (solo_of (map (λ w. w.now) words.now)) }
{
    let Some((shards, rest)) = first_word(words) else {
        return Err(LineFault::Rule(LineRule::First));
    };
    let Some((blocks, rest)) = first_word(rest) else {
        let shards = read_shard_count(shards)?;
        return Ok(First::Solo {
            shards,
            blocks: None,
        });
    };
    if first_word(rest).is_some() {
        return Err(LineFault::Rule(LineRule::First));
    }
    let shards = read_shard_count(shards)?;
    let blocks = Some(read_block_count(blocks)?);
    Ok(First::Solo { shards, blocks })
}

#[tactic(auto, unfolding(crate::specs::Schedule::first_of))]
fn read_first_words(words: &[&[u8]]) -> Result<First, LineFault>
    ensures { Gives (λ x. x) result (first_of (map (λ w. w.now) words.now)) }
{
    let Some((verb, rest)) = first_word(words) else {
        return Err(LineFault::Rule(LineRule::First));
    };
    if !is(verb, b"solo") {
        return Err(LineFault::Rule(LineRule::First));
    }
    read_solo(rest)
}

#[tactic(auto, unfolding(crate::specs::Schedule::first_at))]
fn read_first(alloc: Global, line: &[u8]) -> Result<First, LineFault>
    ensures { Gives (λ x. x) result (first_at line.now) }
{
    if line.is_empty() {
        return Err(LineFault::Rule(LineRule::First));
    }
    let words = split_words(alloc, line)?;
    if !are_words(&words) {
        return Err(LineFault::Rule(LineRule::Bytes));
    }
    read_first_words(&words)
}

fn first_in(alloc: Global, line: &[u8]) -> Result<First, ScheduleFault>
    ensures { Answers result (at_line 1 (first_at line.now)) }
{
    match read_first(alloc, line) {
        Ok(first) => Ok(first),
        Err(LineFault::Rule(rule)) => Err(ScheduleFault::BadLine { line: 1, rule }),
        Err(LineFault::NoMemory) => Err(ScheduleFault::NoMemory),
    }
}

fn event_in(
    alloc: Global,
    places: Places,
    number: u64,
    line: &[u8],
) -> Result<Event<Request>, ScheduleFault>
    ensures { Answers result (at_line number (line_at places line.now)) }
{
    match read_line(alloc, places, line) {
        Ok(event) => Ok(event),
        Err(LineFault::Rule(rule)) => Err(ScheduleFault::BadLine { line: number, rule }),
        Err(LineFault::NoMemory) => Err(ScheduleFault::NoMemory),
    }
}

fn read_events(
    alloc: Global,
    places: Places,
    text: &[u8],
) -> Result<List<Event<Request>>, ScheduleFault>
    ensures exact { Answers result (events_at places 2 (lines_of text.now)) }
    ensures short { IfOk result (λ es. length es ≤ length text.now) }
{
    let mut events = List::new(alloc);
    let mut rest = text;
    while !rest.is_empty() {
        let (line, after) = first_line(rest);
        let event = event_in(alloc, places, events.len() as u64 + 2, line)?;
        events.push(event)?;
        rest = after;
    }
    Ok(events)
}

fn read_all(alloc: Global, bytes: &[u8]) -> Result<Schedule, ScheduleFault>
    ensures exact { Answers result (schedule_at bytes.now) }
    ensures short { IfOk result (λ s. length s.events ≤ length bytes.now) }
{
    if bytes.is_empty() {
        return Err(ScheduleFault::BadLine {
            line: 1,
            rule: LineRule::First,
        });
    }
    let (line, rest) = first_line(bytes);
    let first = first_in(alloc, line)?;
    let First::Solo { shards, .. } = first;
    let events = read_events(alloc, Places { nodes: 1, shards }, rest)?;
    Ok(Schedule { first, events })
}

/// The schedule that the bytes spell, or the first bad line and the first rule that it breaks (docs/REPLAY.md).
/// It costs the bytes, and takes memory for the schedule and for one line's words and longest key or value.
pub fn read_schedule(alloc: Global, bytes: &[u8]) -> Result<Schedule, ScheduleFault>
    // What is read is spelled so.
    ensures found { IfOk result (λ s. SpellsSchedule bytes.now s) }
    // What is spelled so is read, unless memory runs out.
    ensures only { (s : Schedule) → SpellsSchedule bytes.now s → Answers result (Ok s) }
    // Else the lines before the told one are good, and it breaks the told rule and none that comes before that.
    ensures first { IfErr result (λ f. IsFaultOf bytes.now f) }
    // In one equation: the schedule, or which line and which rule it is.
    ensures exact { Answers result (schedule_at bytes.now) }
    ensures short { IfOk result (λ s. length s.events ≤ length bytes.now) }
{
    read_all(alloc, bytes)
}
