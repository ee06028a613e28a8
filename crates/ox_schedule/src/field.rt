// Fields and operations, each at the front of the words that are left.
ghost use Rattle.std.specs.Prelude.{◌≡◌, map};
ghost use Rattle.ox_schedule.specs.Outcome.{Gives};
ghost use Rattle.ox_schedule.specs.Reading.{key_at, value_at, number_at, single_of, notices_of, lo_of, hi_of, compare_of, range_at, range_of, put_of, delete_of, get_of, ends_of};

use crate::escape::{read_key, read_value};
use crate::fault::LineFault;
use crate::options::{
    deltas_option, expect_option, no_option, option_text, read_entries, read_index, session_option,
};
use crate::word::{is, next_word, read_number};
use ox_ops::{Compare, Delete, Hi, KeyRange, Lo, Put, ShardQuery};
use ox_types::{Key, LineRule, Octets, Value};
use std::alloc::Global;

#[tactic(auto, unfolding(crate::specs::Reading::key_at))]
fn key_field<'a, 'b>(
    alloc: Global,
    words: &'b [&'a [u8]],
) -> Result<(Key, &'b [&'a [u8]]), LineFault>
    ensures { Gives (λ x. (x.0, map (λ w. w.now) x.1.now)) result (key_at (map (λ w. w.now) words.now)) }
{
    let (word, rest) = next_word(words)?;
    Ok((read_key(alloc, word)?, rest))
}

#[tactic(auto, unfolding(crate::specs::Reading::value_at))]
fn value_field<'a, 'b>(
    alloc: Global,
    words: &'b [&'a [u8]],
) -> Result<(Value, &'b [&'a [u8]]), LineFault>
    ensures { Gives (λ x. (x.0, map (λ w. w.now) x.1.now)) result (value_at (map (λ w. w.now) words.now)) }
{
    let (word, rest) = next_word(words)?;
    Ok((read_value(alloc, word)?, rest))
}

#[tactic(auto, unfolding(crate::specs::Reading::number_at))]
fn number_field<'a, 'b>(words: &'b [&'a [u8]]) -> Result<(u64, &'b [&'a [u8]]), LineFault>
    ensures { Gives (λ x. (x.0, map (λ w. w.now) x.1.now)) result (number_at (map (λ w. w.now) words.now)) }
{
    let (word, rest) = next_word(words)?;
    Ok((read_number(word)?, rest))
}

#[tactic(auto, unfolding(crate::specs::Reading::single_of))]
pub fn read_single(words: &[&[u8]]) -> Result<u64, LineFault>
    ensures { Gives (λ n. n) result (single_of (map (λ w. w.now) words.now)) }
{
    let (number, rest) = number_field(words)?;
    no_option(rest)?;
    Ok(number)
}

#[tactic(auto, unfolding(crate::specs::Reading::notices_of))]
pub fn read_notices(words: &[&[u8]]) -> Result<ShardQuery, LineFault>
    ensures { Gives (λ q. q) result (notices_of (map (λ w. w.now) words.now)) }
{
    let (after, rest) = number_field(words)?;
    let skip = read_single(rest)?;
    Ok(ShardQuery::Notices { after, skip })
}

#[tactic(auto, unfolding(crate::specs::Reading::lo_of))]
fn read_lo(alloc: Global, word: &[u8]) -> Result<Lo, LineFault>
    ensures { Gives (λ x. x) result (lo_of word.now) }
{
    if is(word, b"*") {
        return Ok(Lo::Start);
    }
    match option_text(word, b">") {
        Some(text) => Ok(Lo::Past(read_key(alloc, text)?)),
        None => Ok(Lo::At(read_key(alloc, word)?)),
    }
}

#[tactic(auto, unfolding(crate::specs::Reading::hi_of))]
fn read_hi(alloc: Global, word: &[u8]) -> Result<Hi, LineFault>
    ensures { Gives (λ x. x) result (hi_of word.now) }
{
    if is(word, b"*") {
        return Ok(Hi::End);
    }
    Ok(Hi::Before(read_key(alloc, word)?))
}

#[tactic(auto, unfolding(crate::specs::Reading::compare_of))]
fn read_compare(word: &[u8]) -> Result<Compare, LineFault>
    ensures { Gives (λ x. x) result (compare_of word.now) }
{
    if is(word, b"equal") {
        Ok(Compare::Equal)
    } else if is(word, b"floor") {
        Ok(Compare::Floor)
    } else if is(word, b"ceiling") {
        Ok(Compare::Ceiling)
    } else if is(word, b"lower") {
        Ok(Compare::Lower)
    } else if is(word, b"higher") {
        Ok(Compare::Higher)
    } else {
        Err(LineFault::Rule(LineRule::Word))
    }
}

#[tactic(auto, unfolding(crate::specs::Reading::range_at))]
fn range_field<'a, 'b>(
    alloc: Global,
    words: &'b [&'a [u8]],
) -> Result<(KeyRange, &'b [&'a [u8]]), LineFault>
    ensures { Gives (λ x. (x.0, map (λ w. w.now) x.1.now)) result (range_at (map (λ w. w.now) words.now)) }
{
    let (word, rest) = next_word(words)?;
    let lo = read_lo(alloc, word)?;
    let (word, rest) = next_word(rest)?;
    let hi = read_hi(alloc, word)?;
    Ok((KeyRange { lo, hi }, rest))
}

#[tactic(auto, unfolding(crate::specs::Reading::range_of))]
pub fn read_range(alloc: Global, words: &[&[u8]]) -> Result<KeyRange, LineFault>
    ensures { Gives (λ x. x) result (range_of (map (λ w. w.now) words.now)) }
{
    let (range, rest) = range_field(alloc, words)?;
    no_option(rest)?;
    Ok(range)
}

/// The range of a list or a scan, and its index.
#[tactic(auto, unfolding(crate::specs::Reading::ends_of))]
pub fn read_ends(alloc: Global, words: &[&[u8]]) -> Result<(KeyRange, Option<Octets>), LineFault>
    ensures { Gives (λ x. x) result (ends_of (map (λ w. w.now) words.now)) }
{
    let (range, rest) = range_field(alloc, words)?;
    let by = read_index(alloc, rest)?;
    Ok((range, by))
}

#[tactic(auto, unfolding(crate::specs::Reading::put_of))]
pub fn read_put(alloc: Global, words: &[&[u8]]) -> Result<Put, LineFault>
    ensures { Gives (λ x. x) result (put_of (map (λ w. w.now) words.now)) }
{
    let (key, rest) = key_field(alloc, words)?;
    let (value, rest) = value_field(alloc, rest)?;
    let (expect, rest) = expect_option(rest)?;
    let (session, rest) = session_option(rest)?;
    let (deltas, rest) = deltas_option(alloc, rest)?;
    let indexes = read_entries(alloc, rest)?;
    Ok(Put {
        key,
        value,
        expect,
        session,
        deltas,
        indexes,
    })
}

#[tactic(auto, unfolding(crate::specs::Reading::delete_of))]
pub fn read_delete(alloc: Global, words: &[&[u8]]) -> Result<Delete, LineFault>
    ensures { Gives (λ x. x) result (delete_of (map (λ w. w.now) words.now)) }
{
    let (key, rest) = key_field(alloc, words)?;
    let (expect, rest) = expect_option(rest)?;
    no_option(rest)?;
    Ok(Delete { key, expect })
}

#[tactic(auto, unfolding(crate::specs::Reading::get_of))]
pub fn read_get(alloc: Global, words: &[&[u8]]) -> Result<ShardQuery, LineFault>
    ensures { Gives (λ x. x) result (get_of (map (λ w. w.now) words.now)) }
{
    let (word, rest) = next_word(words)?;
    let compare = read_compare(word)?;
    let (key, rest) = key_field(alloc, rest)?;
    let by = read_index(alloc, rest)?;
    Ok(ShardQuery::Get { compare, key, by })
}
