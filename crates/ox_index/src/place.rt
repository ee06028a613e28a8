//! Places in a list of added entries that stands in order.
ghost use Rattle.std.specs.Prelude.{MatchResult};
ghost use Rattle.std.specs.Ordering.{is_lt, is_le};
ghost use Rattle.ox_types.specs.Order.{bytes_cmp};
ghost use Rattle.ox_types.specs.Lists.{IsCut};
ghost use Rattle.ox_index.specs.Order.{entry_cmp, added_cmp, IsInOrder};
ghost use Rattle.ox_index.specs.Place.{IsPlaceOf, IsGapFor, is_before_start, is_before_end};

use crate::added::{Added, entry_order, name_order, order};
use ox_ops::{Hi, IndexEntry, Lo};
use ox_types::Key;

/// How many entries stand before this name and secondary key.
pub fn count_before(entries: &[Added], name: &[u8], second: &Key) -> usize
    requires { IsInOrder entries.now }
    ensures { IsCut (λ a. is_lt (entry_cmp a.entry (record { name = name.now; key = second.now }))) entries.now result }
{
    entries.partition_point(|a| entry_order(&a.entry, name, second).is_lt())
}

/// How many entries stand before this name and secondary key, or have them.
pub fn count_up_to(entries: &[Added], name: &[u8], second: &Key) -> usize
    requires { IsInOrder entries.now }
    ensures { IsCut (λ a. is_le (entry_cmp a.entry (record { name = name.now; key = second.now }))) entries.now result }
{
    entries.partition_point(|a| entry_order(&a.entry, name, second).is_le())
}

/// How many entries have names before this one.
fn count_before_name(entries: &[Added], name: &[u8]) -> usize
    requires { IsInOrder entries.now }
    ensures { IsCut (λ a. is_lt (bytes_cmp a.entry.name name.now)) entries.now result }
{
    entries.partition_point(|a| name_order(&a.entry, name).is_lt())
}

/// How many entries have names before this one, or this one.
fn count_up_to_name(entries: &[Added], name: &[u8]) -> usize
    requires { IsInOrder entries.now }
    ensures { IsCut (λ a. is_le (bytes_cmp a.entry.name name.now)) entries.now result }
{
    entries.partition_point(|a| name_order(&a.entry, name).is_le())
}

/// How many entries stand before this one.
pub fn count_before_added(entries: &[Added], entry: &IndexEntry, key: &Key) -> usize
    requires { IsInOrder entries.now }
    ensures { IsCut (λ a. is_lt (added_cmp a (record { entry = entry.now; key = key.now }))) entries.now result }
{
    entries.partition_point(|a| order(a, entry, key).is_lt())
}

/// How many entries stand before the low end of a range of secondary keys.
pub fn start_of(entries: &[Added], name: &[u8], lo: &Lo) -> usize
    requires { IsInOrder entries.now }
    ensures { IsCut (is_before_start name.now lo.now) entries.now result }
{
    match lo {
        Lo::Start => count_before_name(entries, name),
        Lo::At(low) => count_before(entries, name, low),
        Lo::Past(low) => count_up_to(entries, name, low),
    }
}

/// How many entries stand before the high end of a range of secondary keys.
pub fn end_of(entries: &[Added], name: &[u8], hi: &Hi) -> usize
    requires { IsInOrder entries.now }
    ensures { IsCut (is_before_end name.now hi.now) entries.now result }
{
    match hi {
        Hi::End => count_up_to_name(entries, name),
        Hi::Before(high) => count_before(entries, name, high),
    }
}

/// Where the entry stands, or would go.
pub fn place_of(entries: &[Added], entry: &IndexEntry, key: &Key) -> Result<usize, usize>
    requires { IsInOrder entries.now }
    ensures { MatchResult result (IsPlaceOf (record { entry = entry.now; key = key.now }) entries.now) (IsGapFor (record { entry = entry.now; key = key.now }) entries.now) }
{
    let place = count_before_added(entries, entry, key);
    match entries.get(place) {
        None => Err(place),
        Some(added) => {
            if order(added, entry, key).is_eq() {
                Ok(place)
            } else {
                Err(place)
            }
        }
    }
}
