// Options, each at the front of the words that are left.
ghost use Rattle.std.specs.Prelude.{◌≡◌, ◌==◌, IfOk, map, position};
ghost use Rattle.std.specs.List.{slice_split};
ghost use Rattle.std.specs.Option.{option_map};
ghost use Rattle.ox_schedule.specs.Outcome.{Gives};
ghost use Rattle.ox_schedule.specs.Reading.{number_of, each_of, after, at_colon, expect_of, expect_at, session_of, session_at, deltas_of, deltas_at, by_of, by_at, index_of, entry_of, entry_option as entry_option_of, options_end};

use crate::escape::{read_key, read_name};
use crate::fault::LineFault;
use crate::word::{first_word, is, read_number};
use ox_ops::{Expect, IndexEntry};
use ox_types::{LineRule, List, NoMemory, Octets};
use std::alloc::Global;

/// What follows the name at the front of a word.
pub fn option_text<'a>(word: &'a [u8], name: &[u8]) -> Option<&'a [u8]>
    ensures { option_map (λ t. t.now) result ≡ after name.now word.now }
{
    word.strip_prefix(name)
}

#[tactic(auto, unfolding(crate::specs::Reading::expect_of))]
fn read_expect(text: &[u8]) -> Result<Expect, LineFault>
    ensures { Gives (λ e. e) result (expect_of text.now) }
{
    if is(text, b"absent") {
        return Ok(Expect::Absent);
    }
    Ok(Expect::Exactly(read_number(text)?))
}

#[tactic(auto, unfolding(crate::specs::Reading::expect_at))]
pub fn expect_option<'a, 'b>(words: &'b [&'a [u8]]) -> Result<(Expect, &'b [&'a [u8]]), LineFault>
    ensures { Gives (λ x. (x.0, map (λ w. w.now) x.1.now)) result (expect_at (map (λ w. w.now) words.now)) }
{
    let Some((word, rest)) = first_word(words) else {
        return Ok((Expect::Any, words));
    };
    let Some(text) = option_text(word, b"expect=") else {
        return Ok((Expect::Any, words));
    };
    Ok((read_expect(text)?, rest))
}

#[tactic(auto, unfolding(crate::specs::Reading::session_of))]
fn read_session(text: &[u8]) -> Result<Option<u64>, LineFault>
    ensures { Gives (λ x. x) result (session_of text.now) }
{
    Ok(Some(read_number(text)?))
}

#[tactic(auto, unfolding(crate::specs::Reading::session_at))]
pub fn session_option<'a, 'b>(
    words: &'b [&'a [u8]],
) -> Result<(Option<u64>, &'b [&'a [u8]]), LineFault>
    ensures { Gives (λ x. (x.0, map (λ w. w.now) x.1.now)) result (session_at (map (λ w. w.now) words.now)) }
{
    let Some((word, rest)) = first_word(words) else {
        return Ok((None, words));
    };
    let Some(text) = option_text(word, b"session=") else {
        return Ok((None, words));
    };
    Ok((read_session(text)?, rest))
}

fn split_commas(alloc: Global, text: &[u8]) -> Result<Vec<&[u8]>, NoMemory>
    ensures { IfOk result (λ parts. map (λ w. w.now) parts.items ≡ slice_split (λ b. b == 44) text.now) }
{
    Ok(text.split(|b| *b == b',').collect(alloc)?)
}

fn read_numbers(alloc: Global, words: &[&[u8]]) -> Result<List<u64>, LineFault>
    ensures { Gives (λ x. x) result (each_of number_of (map (λ w. w.now) words.now)) }
{
    let mut numbers = List::new(alloc);
    for word in words {
        numbers.push(read_number(word)?)?;
    }
    Ok(numbers)
}

#[tactic(auto, unfolding(crate::specs::Reading::deltas_of))]
fn read_deltas(alloc: Global, text: &[u8]) -> Result<List<u64>, LineFault>
    ensures { Gives (λ x. x) result (deltas_of text.now) }
{
    let parts = split_commas(alloc, text)?;
    read_numbers(alloc, &parts)
}

#[tactic(auto, unfolding(crate::specs::Reading::deltas_at))]
pub fn deltas_option<'a, 'b>(
    alloc: Global,
    words: &'b [&'a [u8]],
) -> Result<(List<u64>, &'b [&'a [u8]]), LineFault>
    ensures { Gives (λ x. (x.0, map (λ w. w.now) x.1.now)) result (deltas_at (map (λ w. w.now) words.now)) }
{
    let Some((word, rest)) = first_word(words) else {
        return Ok((List::new(alloc), words));
    };
    let Some(text) = option_text(word, b"seq=") else {
        return Ok((List::new(alloc), words));
    };
    Ok((read_deltas(alloc, text)?, rest))
}

fn colon_place(text: &[u8]) -> Option<usize>
    ensures { result ≡ position (λ b. b == 58) text.now }
{
    text.iter().position(|b| *b == b':')
}

/// What stands before the first colon, and what behind it.
fn split_colon(text: &[u8]) -> Option<(&[u8], &[u8])>
    ensures { option_map (λ x. (x.0.now, x.1.now)) result ≡ at_colon text.now }
{
    match colon_place(text) {
        Some(at) => Some((&text[..at], &text[at + 1..])),
        None => None,
    }
}

#[tactic(auto, unfolding(crate::specs::Reading::entry_of))]
fn read_entry(alloc: Global, text: &[u8]) -> Result<IndexEntry, LineFault>
    ensures { Gives (λ x. x) result (entry_of text.now) }
{
    let Some((name, key)) = split_colon(text) else {
        return Err(LineFault::Rule(LineRule::Option));
    };
    let key = read_key(alloc, key)?;
    let name = read_name(alloc, name)?;
    Ok(IndexEntry { name, key })
}

#[tactic(auto, unfolding(crate::specs::Reading::entry_option))]
fn entry_option(alloc: Global, word: &[u8]) -> Result<IndexEntry, LineFault>
    ensures { Gives (λ x. x) result (entry_option_of word.now) }
{
    match option_text(word, b"index=") {
        Some(text) => read_entry(alloc, text),
        None => Err(LineFault::Rule(LineRule::Option)),
    }
}

/// The index entries of a put, of which each word that is left says one.
pub fn read_entries(alloc: Global, words: &[&[u8]]) -> Result<List<IndexEntry>, LineFault>
    ensures { Gives (λ x. x) result (each_of entry_option_of (map (λ w. w.now) words.now)) }
{
    let mut entries = List::new(alloc);
    for word in words {
        entries.push(entry_option(alloc, word)?)?;
    }
    Ok(entries)
}

pub fn no_option(words: &[&[u8]]) -> Result<(), LineFault>
    ensures { Gives (λ x. tt) result (options_end (map (λ w. w.now) words.now)) }
{
    match words {
        [] => Ok(()),
        [_, ..] => Err(LineFault::Rule(LineRule::Option)),
    }
}

#[tactic(auto, unfolding(crate::specs::Reading::by_of))]
fn read_by(alloc: Global, text: &[u8]) -> Result<Option<Octets>, LineFault>
    ensures { Gives (λ x. x) result (by_of text.now) }
{
    Ok(Some(read_name(alloc, text)?))
}

#[tactic(auto, unfolding(crate::specs::Reading::by_at))]
fn by_option<'a, 'b>(
    alloc: Global,
    words: &'b [&'a [u8]],
) -> Result<(Option<Octets>, &'b [&'a [u8]]), LineFault>
    ensures { Gives (λ x. (x.0, map (λ w. w.now) x.1.now)) result (by_at (map (λ w. w.now) words.now)) }
{
    let Some((word, rest)) = first_word(words) else {
        return Ok((None, words));
    };
    let Some(text) = option_text(word, b"by=") else {
        return Ok((None, words));
    };
    Ok((read_by(alloc, text)?, rest))
}

/// The index of a read, if an option names one.
#[tactic(auto, unfolding(crate::specs::Reading::index_of))]
pub fn read_index(alloc: Global, words: &[&[u8]]) -> Result<Option<Octets>, LineFault>
    ensures { Gives (λ x. x) result (index_of (map (λ w. w.now) words.now)) }
{
    let (by, rest) = by_option(alloc, words)?;
    no_option(rest)?;
    Ok(by)
}
