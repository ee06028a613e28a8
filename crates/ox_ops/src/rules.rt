ghost use Rattle.std.specs.Prelude.{◌≡◌, ◌≤◌, ◌+◌, IfOk, OnErr, length};
ghost use Rattle.std.specs.List.{list_any};
ghost use Rattle.ox_ops.specs.Size.{write_size as size_of_write};
ghost use Rattle.ox_ops.specs.Check.{same_entry, has_repeated, begins_with_0, is_any, put_fault, put_faults, is_many, operations_in, batch_fault, timeout_fault, command_fault};

use crate::write::{Expect, IndexEntry, Put, ShardCommand, WriteBatch};
use crate::write_size::write_size;
use ox_types::{Bad, COMMAND_LIMIT, KEY_LIMIT, NoMemory, Part, Rule};
use std::alloc::Global;

/// The most operations of a batch.
const OPS_LIMIT: usize = 1000;

/// The most deltas of a put, and the bytes that each adds to its key.
const DELTA_LIMIT: usize = 8;

const DELTA_BYTES: usize = 21;

/// The most index entries of a put.
const INDEX_LIMIT: usize = 16;

/// The least and the greatest timeout of a session (ms).
const TIMEOUT_LEAST: u64 = 1000;

const TIMEOUT_MOST: u64 = 600_000;

fn is_same(a: &IndexEntry, b: &IndexEntry) -> bool
    ensures { result ≡ same_entry a.now b.now }
{
    a.name.as_slice() == b.name.as_slice() && a.key.bytes() == b.key.bytes()
}

/// Whether one of the entries is equal to this one.
fn is_among(entry: &IndexEntry, entries: &[IndexEntry]) -> bool
    ensures { result ≡ list_any (same_entry entry.now) entries.now }
{
    match entries {
        [] => false,
        [first, rest @ ..] => is_same(entry, first) || is_among(entry, rest),
    }
}

/// Whether two of the entries are equal.
fn repeats(entries: &[IndexEntry]) -> bool
    ensures { result ≡ has_repeated entries.now }
{
    match entries {
        [] => false,
        [first, rest @ ..] => is_among(first, rest) || repeats(rest),
    }
}

fn starts_with_0(deltas: &[u64]) -> bool
    ensures { result ≡ begins_with_0 deltas.now }
{
    match deltas {
        [] => false,
        [first, ..] => *first == 0,
    }
}

fn takes_any(expect: &Expect) -> bool
    ensures { result ≡ is_any expect.now }
{
    match expect {
        Expect::Any => true,
        Expect::Absent => false,
        Expect::Exactly(_) => false,
    }
}

/// The first rule that a put breaks.
fn check_put(put: &Put) -> Option<Rule>
    ensures { result ≡ put_fault put.now }
{
    let deltas = put.deltas.as_slice();
    let entries = put.indexes.as_slice();
    if deltas.len() > DELTA_LIMIT {
        Some(Rule::Deltas)
    } else if starts_with_0(deltas) {
        Some(Rule::First)
    } else if !deltas.is_empty() && !takes_any(&put.expect) {
        Some(Rule::Sequence)
    } else if put.key.bytes().len() + DELTA_BYTES * deltas.len() > KEY_LIMIT {
        Some(Rule::Long)
    } else if entries.len() > INDEX_LIMIT {
        Some(Rule::Indexes)
    } else if repeats(entries) {
        Some(Rule::Repeated)
    } else {
        None
    }
}

/// The first put at fault, the first of them numbered `index`.
fn check_puts(index: u32, puts: &[Put]) -> Option<Bad>
    requires { index + length puts.now ≤ 1000 }
    ensures { result ≡ put_faults index puts.now }
{
    match puts {
        [] => None,
        [first, rest @ ..] => match check_put(first) {
            Some(rule) => Some(Bad {
                part: Part::Put,
                index,
                rule,
            }),
            None => check_puts(index + 1, rest),
        },
    }
}

/// Whether the number of operations is out of bounds.
fn has_many(batch: &WriteBatch) -> bool
    ensures { result ≡ is_many (operations_in batch.now) }
{
    let (puts, deletes, ranges) = (batch.puts.len(), batch.deletes.len(), batch.ranges.len());
    if puts > OPS_LIMIT || deletes > OPS_LIMIT || ranges > OPS_LIMIT {
        return true;
    }
    let count = puts + deletes + ranges;
    count == 0 || count > OPS_LIMIT
}

fn bad(part: Part, rule: Rule) -> Bad
    ensures { result ≡ record { part = part; index = 0; rule = rule } }
{
    Bad {
        part,
        index: 0,
        rule,
    }
}

fn check_batch(batch: &WriteBatch) -> Option<Bad>
    ensures { result ≡ batch_fault batch.now (size_of_write batch.now) }
{
    if has_many(batch) {
        Some(bad(Part::Batch, Rule::Ops))
    } else if write_size(batch) > COMMAND_LIMIT as u64 {
        Some(bad(Part::Batch, Rule::Size))
    } else {
        check_puts(0, batch.puts.as_slice())
    }
}

fn check_timeout(timeout: u64) -> Option<Bad>
    ensures { result ≡ timeout_fault timeout }
{
    if (TIMEOUT_LEAST..=TIMEOUT_MOST).contains(&timeout) {
        None
    } else {
        Some(bad(Part::Session, Rule::Timeout))
    }
}

/// The first fault of a client's command (docs/STORE.md), whether or not its numbers are within their bounds. It takes no
/// memory: the bytes of a write's text are counted, and it isn't written.
#[tactic(auto, unfolding(crate::specs::Check::command_fault))]
pub fn check(_alloc: Global, command: &ShardCommand) -> Result<Option<Bad>, NoMemory>
    ensures fault { IfOk result (λ fault. fault ≡ command_fault command.now) }
    ensures memory { OnErr result ⊥ }
{
    match command {
        ShardCommand::Write(batch) => Ok(check_batch(batch)),
        ShardCommand::Open { timeout } => Ok(check_timeout(*timeout)),
        ShardCommand::Close { .. } => Ok(None),
        ShardCommand::Expire { .. } => Ok(Some(bad(Part::Batch, Rule::Expire))),
    }
}
