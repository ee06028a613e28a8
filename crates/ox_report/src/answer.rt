// Answers: records, notices, and pages of them.
ghost use Rattle.std.specs.Prelude.{◌≡◌, ◌++◌, OnOk, OnErr, codes};
ghost use Rattle.std.specs.List.{flat_map};
ghost use Rattle.ox_text.specs.Words.{behind_space, spelt, value_word, field, field_or};
ghost use Rattle.ox_report.specs.Answer.{index_text, record_text, notice_text, all_word, page_head, key_item, record_item, notice_item, answer_text};

use crate::field::add_meta;
use ox_ops::{IndexEntry, Notice, NoticeItem, Record, ShardAnswer};
use ox_text::{add_bytes, add_count, add_counts, add_field, add_key, add_range, add_value};
use ox_types::{Key, NoMemory, Octets, Value};
use std::alloc::Global;

// ---- records

fn add_index(alloc: Global, text: &mut Octets, entry: &IndexEntry) -> Result<(), NoMemory>
    ensures { OnOk result (text.new ≡ text.old ++ index_text entry.now) }
{
    text.extend(b" ")?;
    add_bytes(alloc, text, entry.name.as_slice())?;
    text.extend(b":")?;
    add_key(alloc, text, &entry.key)
}

fn add_indexes(alloc: Global, text: &mut Octets, entries: &[IndexEntry]) -> Result<(), NoMemory>
    ensures { OnOk result (text.new ≡ text.old ++ flat_map index_text entries.now) }
{
    for entry in entries {
        add_index(alloc, text, entry)?;
    }
    Ok(())
}

/// The session, or `-`, behind a space.
fn add_session(text: &mut Octets, session: Option<u64>) -> Result<(), NoMemory>
    ensures { OnOk result (text.new ≡ text.old ++ field_or (codes "-") session) }
{
    match session {
        Some(session) => add_field(text, session),
        None => text.extend(b" -"),
    }
}

fn add_pair(alloc: Global, text: &mut Octets, key: &Key, value: &Value) -> Result<(), NoMemory>
    ensures { OnOk result (text.new ≡ text.old ++ (spelt key.now ++ codes " " ++ value_word value.now)) }
{
    add_key(alloc, text, key)?;
    text.extend(b" ")?;
    add_value(alloc, text, value)
}

fn add_record(alloc: Global, text: &mut Octets, found: &Record) -> Result<(), NoMemory>
    ensures { OnOk result (text.new ≡ text.old ++ record_text found.now) }
{
    add_pair(alloc, text, &found.key, &found.value)?;
    add_meta(text, found.meta)?;
    add_session(text, found.session)?;
    add_indexes(alloc, text, found.indexes.as_slice())
}

fn add_found(alloc: Global, text: &mut Octets, found: &Record) -> Result<(), NoMemory>
    ensures { OnOk result (text.new ≡ text.old ++ (codes "record " ++ record_text found.now)) }
{
    text.extend(b"record ")?;
    add_record(alloc, text, found)
}

// ---- notices

/// A word, a key and a version.
fn add_change(
    alloc: Global,
    text: &mut Octets,
    word: &[u8],
    key: &Key,
    version: u64,
) -> Result<(), NoMemory>
    ensures { OnOk result (text.new ≡ text.old ++ (word.now ++ spelt key.now ++ field version)) }
{
    text.extend(word)?;
    add_key(alloc, text, key)?;
    add_field(text, version)
}

fn add_notice(alloc: Global, text: &mut Octets, notice: &Notice) -> Result<(), NoMemory>
    ensures { OnOk result (text.new ≡ text.old ++ notice_text notice.now) }
{
    match notice {
        Notice::Created { key, version } => add_change(alloc, text, b"created ", key, *version),
        Notice::Modified { key, version } => add_change(alloc, text, b"modified ", key, *version),
        Notice::Deleted { key } => {
            text.extend(b"deleted ")?;
            add_key(alloc, text, key)
        }
        Notice::Ranged { range } => {
            text.extend(b"ranged")?;
            add_range(alloc, text, range)
        }
    }
}

// ---- pages

/// The word `all` or `more`, behind a space.
fn add_all(text: &mut Octets, more: bool) -> Result<(), NoMemory>
    ensures { OnOk result (text.new ≡ text.old ++ behind_space (all_word more)) }
{
    if more {
        text.extend(b" more")
    } else {
        text.extend(b" all")
    }
}

fn add_head(text: &mut Octets, word: &[u8], count: u64, more: bool) -> Result<(), NoMemory>
    ensures { OnOk result (text.new ≡ text.old ++ page_head word.now count more) }
{
    add_count(text, word, count)?;
    add_all(text, more)
}

fn add_key_items(alloc: Global, text: &mut Octets, keys: &[Key]) -> Result<(), NoMemory>
    ensures { OnOk result (text.new ≡ text.old ++ flat_map key_item keys.now) }
{
    for key in keys {
        text.extend(b" ")?;
        add_key(alloc, text, key)?;
    }
    Ok(())
}

fn add_record_items(alloc: Global, text: &mut Octets, records: &[Record]) -> Result<(), NoMemory>
    ensures { OnOk result (text.new ≡ text.old ++ flat_map record_item records.now) }
{
    for found in records {
        text.extend(b" | ")?;
        add_record(alloc, text, found)?;
    }
    Ok(())
}

/// A notice behind a bar, with the offset of its entry.
fn add_item(alloc: Global, text: &mut Octets, item: &NoticeItem) -> Result<(), NoMemory>
    ensures { OnOk result (text.new ≡ text.old ++ notice_item item.now) }
{
    text.extend(b" |")?;
    add_field(text, item.offset)?;
    text.extend(b" ")?;
    add_notice(alloc, text, &item.notice)
}

fn add_notice_items(alloc: Global, text: &mut Octets, items: &[NoticeItem]) -> Result<(), NoMemory>
    ensures { OnOk result (text.new ≡ text.old ++ flat_map notice_item items.now) }
{
    for item in items {
        add_item(alloc, text, item)?;
    }
    Ok(())
}

// ---- answers

/// The text of an answer, as `add_answer` adds it; where memory runs out, a part of it may be there.
pub fn write_answer(alloc: Global, text: &mut Octets, answer: &ShardAnswer) -> Result<(), NoMemory>
    ensures { OnOk result (text.new ≡ text.old ++ answer_text answer.now) }
{
    match answer {
        ShardAnswer::Got(None) => text.extend(b"none"),
        ShardAnswer::Got(Some(found)) => add_found(alloc, text, found),
        ShardAnswer::Keys { keys, more } => {
            add_head(text, b"keys", keys.len() as u64, *more)?;
            add_key_items(alloc, text, keys.as_slice())
        }
        ShardAnswer::Records { records, more } => {
            add_head(text, b"records", records.len() as u64, *more)?;
            add_record_items(alloc, text, records.as_slice())
        }
        ShardAnswer::Notices { items, more } => {
            add_head(text, b"notices", items.len() as u64, *more)?;
            add_notice_items(alloc, text, items.as_slice())
        }
        ShardAnswer::NotRetained { asked, low } => {
            add_counts(text, b"not-retained", *asked, *low)
        }
        ShardAnswer::Alive => text.extend(b"alive"),
        ShardAnswer::SessionDoesNotExist { session } => add_count(text, b"no-session", *session),
    }
}

/// Adds the text of the answer to a query, as the line of a read has it behind the prefix. It costs the text, which is
/// made in memory of its own first. Where memory runs out, nothing is added.
pub fn add_answer(alloc: Global, text: &mut Octets, answer: &ShardAnswer) -> Result<(), NoMemory>
    ensures ok { OnOk result (text.new ≡ text.old ++ answer_text answer.now) }
    ensures err { OnErr result (text.new ≡ text.old) }
{
    let mut line = Octets::new(alloc);
    write_answer(alloc, &mut line, answer)?;
    text.extend(line.as_slice())
}
