//! What records weigh.
ghost use Rattle.std.specs.Prelude.{◌≡◌, ◌+◌, ◌≤◌, sum_by};
ghost use Rattle.std.specs.Option.{option_copied};
ghost use Rattle.ox_types.specs.Limits.{weight_limit};
ghost use Rattle.ox_ops.specs.Weight.{entry_weight as weight_of_entry, record_weight as weight_of_record};
ghost use Rattle.ox_puts.specs.Records.{old_weight};

use ox_ops::{IndexEntry, Record};

fn entries_weight(entries: &[IndexEntry]) -> u64
    requires { sum_by weight_of_entry entries.now ≤ weight_limit }
    ensures { result ≡ sum_by weight_of_entry entries.now }
{
    match entries {
        [] => 0,
        [first, rest @ ..] => {
            let others = entries_weight(rest);
            first.name.len() as u64 + first.key.bytes().len() as u64 + 8 + others
        }
    }
}

pub fn record_weight(item: &Record) -> u64
    requires { sum_by weight_of_entry item.now.indexes ≤ weight_limit }
    ensures weight { result ≡ weight_of_record item.now }
    ensures small { result ≤ 270000000 }
{
    let own = item.key.bytes().len() as u64 + item.value.bytes().len() as u64 + 64;
    own + entries_weight(item.indexes.as_slice())
}

/// What the record weighs, if there is one.
pub fn weight_if_some(item: Option<&Record>) -> u64
    requires { old_weight (option_copied item) ≤ weight_limit }
    ensures { result ≡ old_weight (option_copied item.entry) }
{
    match item {
        None => 0,
        Some(item) => record_weight(item),
    }
}

/// What the records weigh together.
pub fn records_weight(records: &[Record]) -> u64
    requires { sum_by weight_of_record records.now ≤ weight_limit }
    ensures { result ≡ sum_by weight_of_record records.now }
{
    let mut total = 0;
    for item in records {
        total += record_weight(item);
    }
    total
}

/// The weight of all with one record in the place of another.
pub fn weight_with(weight: u64, added: &Record, old: Option<&Record>) -> u64
    requires small { sum_by weight_of_entry added.now.indexes ≤ weight_limit }
    requires limited { weight ≤ weight_limit }
    requires within { old_weight (option_copied old) ≤ weight }
    ensures { result + old_weight (option_copied old.entry) ≡ weight + weight_of_record added.now }
{
    match old {
        None => weight + record_weight(added),
        Some(old) => weight - record_weight(old) + record_weight(added),
    }
}
