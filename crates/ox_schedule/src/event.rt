// What happens next: the words of an event, each after the one before it.
ghost use Rattle.std.specs.Prelude.{◌≡◌, map};
ghost use Rattle.ox_schedule.specs.Outcome.{Gives};
ghost use Rattle.ox_schedule.specs.Reading.{node_at, shard_at, client_of, tick_of, turn_of, call_at, image_of, cut_of, node_of, term_of, seat_of, event_of};

use crate::fault::LineFault;
use crate::field::read_single;
use crate::line::read_request;
use crate::options::no_option;
use crate::schedule::{Places, Request};
use crate::word::{is, next_word, read_number};
use ox_types::LineRule;
use ox_wire::{Event, Image, Turn};
use std::alloc::Global;

#[tactic(auto, unfolding(crate::specs::Reading::node_at))]
fn node_field<'a, 'b>(
    places: Places,
    words: &'b [&'a [u8]],
) -> Result<(u64, &'b [&'a [u8]]), LineFault>
    ensures { Gives (λ x. (x.0, map (λ w. w.now) x.1.now)) result (node_at places (map (λ w. w.now) words.now)) }
{
    let (word, rest) = next_word(words)?;
    let node = read_number(word)?;
    if node < 1 || node > places.nodes {
        return Err(LineFault::Rule(LineRule::Name));
    }
    Ok((node, rest))
}

#[tactic(auto, unfolding(crate::specs::Reading::shard_at))]
fn shard_field<'a, 'b>(
    places: Places,
    words: &'b [&'a [u8]],
) -> Result<(u64, &'b [&'a [u8]]), LineFault>
    ensures { Gives (λ x. (x.0, map (λ w. w.now) x.1.now)) result (shard_at places (map (λ w. w.now) words.now)) }
{
    let (word, rest) = next_word(words)?;
    let shard = read_number(word)?;
    if shard >= places.shards {
        return Err(LineFault::Rule(LineRule::Name));
    }
    Ok((shard, rest))
}

#[tactic(auto, unfolding(crate::specs::Reading::client_of))]
fn read_client(alloc: Global, places: Places, words: &[&[u8]]) -> Result<Turn<Request>, LineFault>
    ensures { Gives (λ x. x) result (client_of places (map (λ w. w.now) words.now)) }
{
    let (node, rest) = node_field(places, words)?;
    let (shard, rest) = shard_field(places, rest)?;
    let request = read_request(alloc, rest)?;
    Ok(Turn::Client {
        node,
        shard,
        request,
    })
}

#[tactic(auto, unfolding(crate::specs::Reading::tick_of))]
fn read_tick(places: Places, words: &[&[u8]]) -> Result<Turn<Request>, LineFault>
    ensures { Gives (λ x. x) result (tick_of places (map (λ w. w.now) words.now)) }
{
    let (node, rest) = node_field(places, words)?;
    let (shard, rest) = shard_field(places, rest)?;
    let ms = read_single(rest)?;
    Ok(Turn::Tick { node, shard, ms })
}

#[tactic(auto, unfolding(crate::specs::Reading::turn_of))]
fn read_turn(alloc: Global, places: Places, words: &[&[u8]]) -> Result<Turn<Request>, LineFault>
    ensures { Gives (λ x. x) result (turn_of places (map (λ w. w.now) words.now)) }
{
    let (verb, rest) = next_word(words)?;
    if is(verb, b"client") {
        return read_client(alloc, places, rest);
    }
    if is(verb, b"deliver") {
        let message = read_single(rest)?;
        return Ok(Turn::Deliver { message });
    }
    if is(verb, b"tick") {
        return read_tick(places, rest);
    }
    Err(LineFault::Rule(LineRule::Word))
}

#[tactic(auto, unfolding(crate::specs::Reading::call_at))]
fn call_field<'a, 'b>(words: &'b [&'a [u8]]) -> Result<(u64, &'b [&'a [u8]]), LineFault>
    ensures { Gives (λ x. (x.0, map (λ w. w.now) x.1.now)) result (call_at (map (λ w. w.now) words.now)) }
{
    let (word, rest) = next_word(words)?;
    let call = read_number(word)?;
    if call < 1 {
        return Err(LineFault::Rule(LineRule::Number));
    }
    Ok((call, rest))
}

#[tactic(auto, unfolding(crate::specs::Reading::image_of))]
fn read_image(word: &[u8]) -> Result<Image, LineFault>
    ensures { Gives (λ x. x) result (image_of word.now) }
{
    if is(word, b"none") {
        Ok(Image::Nothing)
    } else if is(word, b"kept") {
        Ok(Image::Kept)
    } else if is(word, b"torn") {
        Ok(Image::Torn)
    } else {
        Err(LineFault::Rule(LineRule::Word))
    }
}

#[tactic(auto, unfolding(crate::specs::Reading::cut_of))]
fn read_cut(alloc: Global, places: Places, words: &[&[u8]]) -> Result<Event<Request>, LineFault>
    ensures { Gives (λ x. x) result (cut_of places (map (λ w. w.now) words.now)) }
{
    let (call, rest) = call_field(words)?;
    let (word, rest) = next_word(rest)?;
    let image = read_image(word)?;
    let turn = read_turn(alloc, places, rest)?;
    Ok(Event::Cut { call, image, turn })
}

#[tactic(auto, unfolding(crate::specs::Reading::node_of))]
fn read_node(places: Places, words: &[&[u8]]) -> Result<u64, LineFault>
    ensures { Gives (λ n. n) result (node_of places (map (λ w. w.now) words.now)) }
{
    let (node, rest) = node_field(places, words)?;
    no_option(rest)?;
    Ok(node)
}

#[tactic(auto, unfolding(crate::specs::Reading::term_of))]
fn read_term(words: &[&[u8]]) -> Result<u64, LineFault>
    ensures { Gives (λ n. n) result (term_of (map (λ w. w.now) words.now)) }
{
    let term = read_single(words)?;
    if term < 1 || term > 1 << 53 {
        return Err(LineFault::Rule(LineRule::Number));
    }
    Ok(term)
}

/// A node, a shard and a term.
#[tactic(auto, unfolding(crate::specs::Reading::seat_of))]
fn read_seat(places: Places, words: &[&[u8]]) -> Result<(u64, u64, u64), LineFault>
    ensures { Gives (λ x. x) result (seat_of places (map (λ w. w.now) words.now)) }
{
    let (node, rest) = node_field(places, words)?;
    let (shard, rest) = shard_field(places, rest)?;
    let term = read_term(rest)?;
    Ok((node, shard, term))
}

/// The event that words say, whose shape was tested before.
#[tactic(auto, unfolding(crate::specs::Reading::event_of))]
pub fn read_event(
    alloc: Global,
    places: Places,
    words: &[&[u8]],
) -> Result<Event<Request>, LineFault>
    ensures { Gives (λ x. x) result (event_of places (map (λ w. w.now) words.now)) }
{
    let (verb, rest) = next_word(words)?;
    if is(verb, b"cut") {
        return read_cut(alloc, places, rest);
    }
    if is(verb, b"stop") {
        let node = read_node(places, rest)?;
        return Ok(Event::Stop { node });
    }
    if is(verb, b"start") {
        let node = read_node(places, rest)?;
        return Ok(Event::Start { node });
    }
    if is(verb, b"lose") {
        let node = read_node(places, rest)?;
        return Ok(Event::Lose { node });
    }
    if is(verb, b"fence") {
        let (node, shard, term) = read_seat(places, rest)?;
        return Ok(Event::Fence { node, shard, term });
    }
    if is(verb, b"lead") {
        let (node, shard, term) = read_seat(places, rest)?;
        return Ok(Event::Lead { node, shard, term });
    }
    Ok(Event::Takes(read_turn(alloc, places, words)?))
}
