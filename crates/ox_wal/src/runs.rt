// The runs of one term that entries make.
ghost use Rattle.std.specs.Prelude.{◌≡◌, ◌<◌, ◌≤◌, ◌-◌, ◌∷◌, length, drop, slice_index_or, IfOk};
ghost use Rattle.ox_types.specs.declared.log.Entry.{Entry as EntryIs};
ghost use Rattle.ox_types.specs.Log.{runs_of as entry_runs};
ghost use Rattle.ox_wal.specs.Follow.{Follow};

use crate::entries::number_of;
use ox_types::{Entry, List, NoMemory, TermRun};
use std::alloc::Global;

// How many entries the first run has, by a binary search.
fn run_len(entries: &[Entry]) -> usize
    requires some { 0 < length entries.now }
    requires follow { Follow entries.now }
    ensures within { (0 < result) × (result ≤ length entries.now) }
    ensures runs { (d : EntryIs) → entry_runs entries.now
        ≡ record { term = (slice_index_or entries.now 0 d).term; last = (slice_index_or entries.now (result - 1) d).offset } ∷ entry_runs (drop result entries.now) }
{
    let term = number_of(entries[0].term);
    entries.partition_point(|entry| number_of(entry.term) <= term)
}

// The first run, and how many entries it has.
fn first_run(entries: &[Entry]) -> (TermRun, usize)
    requires some { 0 < length entries.now }
    requires follow { Follow entries.now }
    ensures within { (0 < result.1) × (result.1 ≤ length entries.now) }
    ensures runs { entry_runs entries.now ≡ result.0 ∷ entry_runs (drop result.1 entries.now) }
{
    let len = run_len(entries);
    let run = TermRun {
        term: entries[0].term,
        last: entries[len - 1].offset,
    };
    (run, len)
}

// The entries from a place on.
fn behind(entries: &[Entry], at: usize) -> &[Entry]
    requires { at ≤ length entries.now }
    ensures { result.now ≡ drop at entries.now }
{
    &entries[at..]
}

/// The entries as runs of one term. It costs the runs, and a binary search for each.
pub fn runs_of(alloc: Global, entries: &[Entry]) -> Result<List<TermRun>, NoMemory>
    requires { Follow entries.now }
    ensures { IfOk result (λ runs. runs ≡ entry_runs entries.now) }
{
    let mut runs = List::new(alloc);
    let mut rest = entries;
    while !rest.is_empty() {
        let (run, len) = first_run(rest);
        runs.push(run)?;
        rest = behind(rest, len);
    }
    Ok(runs)
}
