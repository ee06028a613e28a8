// The replies to a command.
ghost use Rattle.std.specs.Prelude.{◌≡◌, ◌++◌, OnOk, OnErr, codes};
ghost use Rattle.std.specs.List.{flat_map};
ghost use Rattle.ox_text.specs.Words.{spelt, field_or};
ghost use Rattle.ox_report.specs.Field.{meta_fields};
ghost use Rattle.ox_report.specs.Reply.{reply_text, replies_text};

use crate::field::add_meta;
use ox_ops::{Meta, OpReply, ShardReply};
use ox_text::{add_count, add_counts, add_field, add_key};
use ox_types::{Key, NoMemory, Octets};
use std::alloc::Global;

fn add_stored(alloc: Global, text: &mut Octets, key: &Key, meta: Meta) -> Result<(), NoMemory>
    ensures { OnOk result (text.new ≡ text.old ++ (codes "put " ++ spelt key.now ++ meta_fields meta)) }
{
    text.extend(b"put ")?;
    add_key(alloc, text, key)?;
    add_meta(text, meta)
}

/// The version that was found, or `none`.
fn add_version(text: &mut Octets, found: Option<u64>) -> Result<(), NoMemory>
    ensures { OnOk result (text.new ≡ text.old ++ (codes "version" ++ field_or (codes "none") found)) }
{
    match found {
        Some(version) => {
            text.extend(b"version")?;
            add_field(text, version)
        }
        None => text.extend(b"version none"),
    }
}

fn write_reply(alloc: Global, text: &mut Octets, reply: &OpReply) -> Result<(), NoMemory>
    ensures { OnOk result (text.new ≡ text.old ++ reply_text reply.now) }
{
    match reply {
        OpReply::Put { key, meta } => add_stored(alloc, text, key, *meta),
        OpReply::Deleted => text.extend(b"deleted"),
        OpReply::Ranged { removed } => add_count(text, b"ranged", *removed),
        OpReply::KeyNotFound => text.extend(b"no-key"),
        OpReply::UnexpectedVersion { found } => add_version(text, *found),
        OpReply::SessionDoesNotExist { session } => add_count(text, b"no-session", *session),
        OpReply::ShardFull { weight, limit } => add_counts(text, b"full", *weight, *limit),
        OpReply::SequenceSpent { group } => add_count(text, b"spent", *group as u64),
        OpReply::Opened { session } => add_count(text, b"opened", *session),
        OpReply::Closed { removed } => add_count(text, b"closed", *removed),
    }
}

/// The replies, each behind `; `.
fn write_others(alloc: Global, text: &mut Octets, replies: &[OpReply]) -> Result<(), NoMemory>
    ensures { OnOk result (text.new ≡ text.old ++ flat_map (λ r. codes "; " ++ reply_text r) replies.now) }
{
    for reply in replies {
        text.extend(b"; ")?;
        write_reply(alloc, text, reply)?;
    }
    Ok(())
}

/// The text of the replies, as `add_replies` adds it; where memory runs out, a part of it may be there.
pub fn write_replies(alloc: Global, text: &mut Octets, reply: &ShardReply) -> Result<(), NoMemory>
    ensures { OnOk result (text.new ≡ text.old ++ replies_text reply.now) }
{
    match reply.ops.as_slice() {
        [] => Ok(()),
        [first, others @ ..] => {
            write_reply(alloc, text, first)?;
            write_others(alloc, text, others)
        }
    }
}

/// Adds the text of the reply to one operation. It costs the text, which is made in memory of its own first. Where
/// memory runs out, nothing is added.
pub fn add_reply(alloc: Global, text: &mut Octets, reply: &OpReply) -> Result<(), NoMemory>
    ensures ok { OnOk result (text.new ≡ text.old ++ reply_text reply.now) }
    ensures err { OnErr result (text.new ≡ text.old) }
{
    let mut line = Octets::new(alloc);
    write_reply(alloc, &mut line, reply)?;
    text.extend(line.as_slice())
}

/// Adds the replies to a command, with `; ` between two, as the line of an acknowledgement has them. It costs the text,
/// which is made in memory of its own first. Where memory runs out, nothing is added.
pub fn add_replies(alloc: Global, text: &mut Octets, reply: &ShardReply) -> Result<(), NoMemory>
    ensures ok { OnOk result (text.new ≡ text.old ++ replies_text reply.now) }
    ensures err { OnErr result (text.new ≡ text.old) }
{
    let mut line = Octets::new(alloc);
    write_replies(alloc, &mut line, reply)?;
    text.extend(line.as_slice())
}
