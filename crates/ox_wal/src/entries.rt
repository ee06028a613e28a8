// Entries: copies, blocks, and whether they may follow a log.
ghost use Rattle.std.specs.Prelude.{◌≡◌, ◌++◌, true, IfOk, OnOk};
ghost use Rattle.std.specs.List.{list_all};
ghost use Rattle.ox_types.specs.Durable.{may_follow};
ghost use Rattle.ox_bytes.specs.LogForms.{entry as entry_form};
ghost use Rattle.ox_wal.specs.Blocks.{blocks_used};
ghost use Rattle.ox_wal.specs.Follow.{last_term};

use crate::action::entry_blocks;
use ox_types::{Entry, EntryBody, NoMemory, Term};

/// A copy on the same allocator, at the cost of its bytes.
pub fn copy_entry(entry: &Entry) -> Result<Entry, NoMemory>
    ensures { IfOk result (λ e. e ≡ entry.now) }
{
    let body = match &entry.body {
        EntryBody::Pass => EntryBody::Pass,
        EntryBody::Command(bytes) => EntryBody::Command(bytes.try_clone()?),
    };
    Ok(Entry {
        term: entry.term,
        offset: entry.offset,
        time: entry.time,
        body,
    })
}

/// Adds copies of the entries. Where memory runs out, some of them may be there.
pub fn copy_entries(entries: &[Entry], to: &mut Vec<Entry>) -> Result<(), NoMemory>
    ensures { OnOk result (to.new.items ≡ to.old.items ++ entries.now) }
{
    for entry in entries {
        let copy = copy_entry(entry)?;
        to.push(copy)?;
    }
    Ok(())
}

/// The blocks that the entries take. Their number fits, or they don't fit in memory.
pub fn count_blocks(entries: &[Entry]) -> Result<u64, NoMemory>
    ensures { IfOk result (λ n. n ≡ blocks_used entries.now) }
{
    let mut blocks: u64 = 0;
    for entry in entries {
        let Some(sum) = blocks.checked_add(entry_blocks(entry)) else {
            return Err(NoMemory);
        };
        blocks = sum;
    }
    Ok(blocks)
}

/// The number of a term.
pub fn number_of(term: Term) -> u64
    ensures { result ≡ term }
{
    term.0
}

/// Whether the entries may follow a log with this last term and count, in a state of term `top`.
pub fn follow(top: u64, term: u64, count: u64, entries: &[Entry]) -> bool
    requires { list_all entry_form.is_lawful entries.now ≡ true }
    ensures { result ≡ may_follow top term count entries.now }
{
    let mut last = term;
    let mut next = count;
    for entry in entries {
        let offset = entry.offset;
        let term = number_of(entry.term);
        if offset != next || term < last || top < term {
            return false;
        }
        last = term;
        next = offset + 1;
    }
    true
}

/// The term of the last entry, or else this one.
pub fn last_of(term: u64, entries: &[Entry]) -> u64
    ensures { result ≡ last_term term entries.now }
{
    if entries.is_empty() {
        term
    } else {
        number_of(entries[entries.len() - 1].term)
    }
}
