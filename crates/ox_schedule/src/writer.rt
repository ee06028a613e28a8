// The line of an event, word by word, each word behind a space.
ghost use Rattle.std.specs.Prelude.{◌≡◌, ◌||◌, ◌++◌, ◌∷◌, [], OnOk, OnErr, MatchOption, map, drop, decimal, codes};
ghost use Rattle.std.specs.List.{flat_map};
ghost use Rattle.ox_text.specs.Words.{spelt, spaced};
ghost use Rattle.ox_schedule.specs.Spelling.{expect_words, session_words, deltas_words, entry_word, by_words, put_options, put_op, delete_op, range_op, joined, batch_ops, grouping_words, command_words, compare_word, query_words, request_words, turn_words, image_word, event_words, event_line};
ghost use Rattle.ox_schedule.specs.Line.{behind_comma, has_some, plus_words, ops_behind};

use crate::schedule::{Grouping, Request};
use ox_ops::{
    Compare, Delete, Expect, IndexEntry, KeyRange, Put, ShardCommand, ShardQuery, WriteBatch,
};
use ox_text::{add_bytes, add_field, add_key, add_number, add_range, add_value};
use ox_types::{Key, NoMemory, Octets};
use ox_wire::{Event, Image, Turn};
use std::alloc::Global;

fn add_expect(text: &mut Octets, expect: Expect) -> Result<(), NoMemory>
    ensures { OnOk result (text.new ≡ text.old ++ spaced (expect_words expect)) }
{
    match expect {
        Expect::Any => Ok(()),
        Expect::Absent => text.extend(b" expect=absent"),
        Expect::Exactly(version) => {
            text.extend(b" expect=")?;
            add_number(text, version)
        }
    }
}

fn add_session(text: &mut Octets, session: Option<u64>) -> Result<(), NoMemory>
    ensures { OnOk result (text.new ≡ text.old ++ spaced (session_words session)) }
{
    match session {
        None => Ok(()),
        Some(id) => {
            text.extend(b" session=")?;
            add_number(text, id)
        }
    }
}

/// Adds the numbers, each behind a comma.
fn add_further(text: &mut Octets, numbers: &[u64]) -> Result<(), NoMemory>
    ensures { OnOk result (text.new ≡ text.old ++ flat_map behind_comma (map decimal numbers.now)) }
{
    for number in numbers {
        text.extend(b",")?;
        add_number(text, *number)?;
    }
    Ok(())
}

/// The first number, and those after it.
fn first_number(numbers: &[u64]) -> Option<(u64, &[u64])>
    ensures { MatchOption result (numbers.now ≡ []) (λ x. numbers.now ≡ x.0 ∷ x.1.now) }
{
    match numbers {
        [] => None,
        [number, rest @ ..] => Some((*number, rest)),
    }
}

fn add_deltas(text: &mut Octets, deltas: &[u64]) -> Result<(), NoMemory>
    ensures { OnOk result (text.new ≡ text.old ++ spaced (deltas_words deltas.now)) }
{
    let Some((first, rest)) = first_number(deltas) else {
        return Ok(());
    };
    text.extend(b" seq=")?;
    add_number(text, first)?;
    add_further(text, rest)
}

fn add_entry(alloc: Global, text: &mut Octets, entry: &IndexEntry) -> Result<(), NoMemory>
    ensures { OnOk result (text.new ≡ text.old ++ spaced (entry_word entry.now ∷ [])) }
{
    text.extend(b" index=")?;
    add_bytes(alloc, text, entry.name.as_slice())?;
    text.extend(b":")?;
    add_key(alloc, text, &entry.key)
}

fn add_entries(alloc: Global, text: &mut Octets, entries: &[IndexEntry]) -> Result<(), NoMemory>
    ensures { OnOk result (text.new ≡ text.old ++ spaced (map entry_word entries.now)) }
{
    for entry in entries {
        add_entry(alloc, text, entry)?;
    }
    Ok(())
}

/// The options of a put, in their order.
fn add_options(alloc: Global, text: &mut Octets, put: &Put) -> Result<(), NoMemory>
    ensures { OnOk result (text.new ≡ text.old ++ spaced (put_options put.now)) }
{
    add_expect(text, put.expect)?;
    add_session(text, put.session)?;
    add_deltas(text, put.deltas.as_slice())?;
    add_entries(alloc, text, put.indexes.as_slice())
}

fn add_by(alloc: Global, text: &mut Octets, by: &Option<Octets>) -> Result<(), NoMemory>
    ensures { OnOk result (text.new ≡ text.old ++ spaced (by_words by.now)) }
{
    match by {
        None => Ok(()),
        Some(name) => {
            text.extend(b" by=")?;
            add_bytes(alloc, text, name.as_slice())
        }
    }
}

fn add_put(alloc: Global, text: &mut Octets, put: &Put) -> Result<(), NoMemory>
    ensures { OnOk result (text.new ≡ text.old ++ spaced (put_op put.now)) }
{
    text.extend(b" put ")?;
    add_key(alloc, text, &put.key)?;
    text.extend(b" ")?;
    add_value(alloc, text, &put.value)?;
    add_options(alloc, text, put)
}

fn add_delete(alloc: Global, text: &mut Octets, delete: &Delete) -> Result<(), NoMemory>
    ensures { OnOk result (text.new ≡ text.old ++ spaced (delete_op delete.now)) }
{
    text.extend(b" delete ")?;
    add_key(alloc, text, &delete.key)?;
    add_expect(text, delete.expect)
}

fn add_range_op(alloc: Global, text: &mut Octets, range: &KeyRange) -> Result<(), NoMemory>
    ensures { OnOk result (text.new ≡ text.old ++ spaced (range_op range.now)) }
{
    text.extend(b" deleterange")?;
    add_range(alloc, text, range)
}

fn add_plus(text: &mut Octets, follows: bool) -> Result<(), NoMemory>
    ensures { OnOk result (text.new ≡ text.old ++ spaced (plus_words follows)) }
{
    if follows {
        return text.extend(b" +");
    }
    Ok(())
}

fn add_puts(
    alloc: Global,
    text: &mut Octets,
    mut follows: bool,
    puts: &[Put],
) -> Result<(), NoMemory>
    ensures { OnOk result (text.new ≡ text.old ++ spaced (ops_behind follows (map put_op puts.now))) }
{
    for put in puts {
        add_plus(text, follows)?;
        add_put(alloc, text, put)?;
        follows = true;
    }
    Ok(())
}

fn add_deletes(
    alloc: Global,
    text: &mut Octets,
    mut follows: bool,
    deletes: &[Delete],
) -> Result<(), NoMemory>
    ensures { OnOk result (text.new ≡ text.old ++ spaced (ops_behind follows (map delete_op deletes.now))) }
{
    for delete in deletes {
        add_plus(text, follows)?;
        add_delete(alloc, text, delete)?;
        follows = true;
    }
    Ok(())
}

fn add_ranges(
    alloc: Global,
    text: &mut Octets,
    mut follows: bool,
    ranges: &[KeyRange],
) -> Result<(), NoMemory>
    ensures { OnOk result (text.new ≡ text.old ++ spaced (ops_behind follows (map range_op ranges.now))) }
{
    for range in ranges {
        add_plus(text, follows)?;
        add_range_op(alloc, text, range)?;
        follows = true;
    }
    Ok(())
}

fn has_items<T>(items: &[T]) -> bool
    ensures { result ≡ has_some items.now }
{
    match items {
        [] => false,
        [_, ..] => true,
    }
}

/// Whether a range of the batch follows another operation.
fn follow_others(batch: &WriteBatch) -> bool
    ensures { result ≡ has_some batch.now.puts || has_some batch.now.deletes }
{
    has_items(batch.puts.as_slice()) || has_items(batch.deletes.as_slice())
}

/// The operations, with `+` between two.
fn add_ops(alloc: Global, text: &mut Octets, batch: &WriteBatch) -> Result<(), NoMemory>
    ensures { OnOk result (text.new ≡ text.old ++ spaced (joined (batch_ops batch.now))) }
{
    let puts = batch.puts.as_slice();
    add_puts(alloc, text, false, puts)?;
    add_deletes(alloc, text, has_items(puts), batch.deletes.as_slice())?;
    add_ranges(alloc, text, follow_others(batch), batch.ranges.as_slice())
}

fn add_grouping(text: &mut Octets, grouping: Grouping) -> Result<(), NoMemory>
    ensures { OnOk result (text.new ≡ text.old ++ spaced (grouping_words grouping)) }
{
    match grouping {
        Grouping::Alone => Ok(()),
        Grouping::Batch => text.extend(b" batch"),
    }
}

fn add_command(
    alloc: Global,
    text: &mut Octets,
    grouping: Grouping,
    command: &ShardCommand,
) -> Result<(), NoMemory>
    ensures { OnOk result (text.new ≡ text.old ++ spaced (command_words grouping command.now)) }
{
    match command {
        ShardCommand::Write(batch) => {
            add_grouping(text, grouping)?;
            add_ops(alloc, text, batch)
        }
        ShardCommand::Open { timeout } => {
            text.extend(b" open")?;
            add_field(text, *timeout)
        }
        ShardCommand::Close { session } => {
            text.extend(b" close")?;
            add_field(text, *session)
        }
        ShardCommand::Expire { session } => {
            text.extend(b" expire")?;
            add_field(text, *session)
        }
    }
}

fn add_compare(text: &mut Octets, compare: Compare) -> Result<(), NoMemory>
    ensures { OnOk result (text.new ≡ text.old ++ spaced (compare_word compare ∷ [])) }
{
    match compare {
        Compare::Equal => text.extend(b" equal"),
        Compare::Floor => text.extend(b" floor"),
        Compare::Ceiling => text.extend(b" ceiling"),
        Compare::Lower => text.extend(b" lower"),
        Compare::Higher => text.extend(b" higher"),
    }
}

fn add_get(alloc: Global, text: &mut Octets, compare: Compare, key: &Key) -> Result<(), NoMemory>
    ensures { OnOk result (text.new ≡ text.old ++ spaced (codes "get" ∷ compare_word compare ∷ spelt key.now ∷ [])) }
{
    text.extend(b" get")?;
    add_compare(text, compare)?;
    text.extend(b" ")?;
    add_key(alloc, text, key)
}

fn add_query(alloc: Global, text: &mut Octets, query: &ShardQuery) -> Result<(), NoMemory>
    ensures { OnOk result (text.new ≡ text.old ++ spaced (query_words query.now)) }
{
    match query {
        ShardQuery::Get { compare, key, by } => {
            add_get(alloc, text, *compare, key)?;
            add_by(alloc, text, by)
        }
        ShardQuery::List { range, by } => {
            text.extend(b" list")?;
            add_range(alloc, text, range)?;
            add_by(alloc, text, by)
        }
        ShardQuery::Scan { range, by } => {
            text.extend(b" scan")?;
            add_range(alloc, text, range)?;
            add_by(alloc, text, by)
        }
        ShardQuery::Notices { after, skip } => {
            text.extend(b" notices")?;
            add_field(text, *after)?;
            add_field(text, *skip)
        }
        ShardQuery::KeepAlive { session } => {
            text.extend(b" keep")?;
            add_field(text, *session)
        }
    }
}

fn add_request(alloc: Global, text: &mut Octets, request: &Request) -> Result<(), NoMemory>
    ensures { OnOk result (text.new ≡ text.old ++ spaced (request_words request.now)) }
{
    match request {
        Request::Write { grouping, command } => add_command(alloc, text, *grouping, command),
        Request::Read(query) => add_query(alloc, text, query),
    }
}

fn add_place(text: &mut Octets, node: u64, shard: u64) -> Result<(), NoMemory>
    ensures { OnOk result (text.new ≡ text.old ++ spaced (decimal node ∷ decimal shard ∷ [])) }
{
    add_field(text, node)?;
    add_field(text, shard)
}

fn add_turn(alloc: Global, text: &mut Octets, turn: &Turn<Request>) -> Result<(), NoMemory>
    ensures { OnOk result (text.new ≡ text.old ++ spaced (turn_words turn.now)) }
{
    match turn {
        Turn::Client {
            node,
            shard,
            request,
        } => {
            text.extend(b" client")?;
            add_place(text, *node, *shard)?;
            add_request(alloc, text, request)
        }
        Turn::Deliver { message } => {
            text.extend(b" deliver")?;
            add_field(text, *message)
        }
        Turn::Tick { node, shard, ms } => {
            text.extend(b" tick")?;
            add_place(text, *node, *shard)?;
            add_field(text, *ms)
        }
    }
}

fn add_image(text: &mut Octets, image: Image) -> Result<(), NoMemory>
    ensures { OnOk result (text.new ≡ text.old ++ spaced (image_word image ∷ [])) }
{
    match image {
        Image::Nothing => text.extend(b" none"),
        Image::Kept => text.extend(b" kept"),
        Image::Torn => text.extend(b" torn"),
    }
}

/// The words of an event, each behind a space.
fn add_words(alloc: Global, text: &mut Octets, event: &Event<Request>) -> Result<(), NoMemory>
    ensures { OnOk result (text.new ≡ text.old ++ spaced (event_words event.now)) }
{
    match event {
        Event::Takes(turn) => add_turn(alloc, text, turn),
        Event::Cut { call, image, turn } => {
            text.extend(b" cut")?;
            add_field(text, *call)?;
            add_image(text, *image)?;
            add_turn(alloc, text, turn)
        }
        Event::Stop { node } => {
            text.extend(b" stop")?;
            add_field(text, *node)
        }
        Event::Start { node } => {
            text.extend(b" start")?;
            add_field(text, *node)
        }
        Event::Lose { node } => {
            text.extend(b" lose")?;
            add_field(text, *node)
        }
        Event::Fence { node, shard, term } => {
            text.extend(b" fence")?;
            add_place(text, *node, *shard)?;
            add_field(text, *term)
        }
        Event::Lead { node, shard, term } => {
            text.extend(b" lead")?;
            add_place(text, *node, *shard)?;
            add_field(text, *term)
        }
    }
}

/// What stands behind the first byte.
fn after_first(text: &[u8]) -> &[u8]
    ensures { result.now ≡ drop 1 text.now }
{
    match text {
        [] => &[],
        [_, rest @ ..] => rest,
    }
}

/// Adds the line of an event, without a line feed: of an event of a schedule, the very line that was read. It costs the
/// line, which is made in memory of its own first. Where memory runs out, nothing is added.
pub fn add_event(alloc: Global, text: &mut Octets, event: &Event<Request>) -> Result<(), NoMemory>
    ensures ok { OnOk result (text.new ≡ text.old ++ event_line event.now) }
    ensures err { OnErr result (text.new ≡ text.old) }
{
    let mut line = Octets::new(alloc);
    add_words(alloc, &mut line, event)?;
    text.extend(after_first(line.as_slice()))
}
