// The bytes of the entries of an Append.
ghost use Rattle.std.specs.Prelude.{◌≡◌, ◌<◌, ◌≤◌, ◌+◌, ◌==◌, nat_le, IsTrue, IfOk};
ghost use Rattle.ox_types.specs.Limits.{offset_limit};
ghost use Rattle.ox_bytes.specs.declared.fault.WireRule.TheVariants.{Range, Order};
ghost use Rattle.ox_bytes.specs.Reading.{Gives};
ghost use Rattle.ox_bytes.specs.Writing.{Puts};
ghost use Rattle.ox_bytes.specs.Form.{checked};
ghost use Rattle.ox_bytes.specs.LogForms.{term as term_form, entry_offset};
ghost use Rattle.ox_wire.specs.BodyForms.{entry_behind, entries_number, entries_from};

use crate::body::ENTRIES_LIMIT;
use ox_bytes::{Field, FieldFault, OFFSET_LIMIT, Reader, TERM_LIMIT, TIME_LIMIT, WireRule, Writer};
use ox_types::{Entry, List, NoMemory, Term};

/// The term of an entry: at most `top`, or else out of range, and at least `least`, or else out of order.
fn take_term(from: &mut Reader<'_>, top: u64, least: u64) -> Result<Term, FieldFault>
    ensures { Gives result from.new ((checked (λ t. nat_le least t) Order (checked (λ t. nat_le t top) Range term_form)).at from.old) }
{
    let range = from.bad(WireRule::Range);
    let order = from.bad(WireRule::Order);
    let term = from.take_u64_to(TERM_LIMIT)?;
    if term > top {
        return Err(FieldFault::Bad(range));
    }
    if term < least {
        return Err(FieldFault::Bad(order));
    }
    Ok(Term(term))
}

/// The offset of an entry: this one, or else out of order.
fn take_offset(from: &mut Reader<'_>, next: u64) -> Result<u64, FieldFault>
    ensures small { IfOk result (λ offset. offset ≤ offset_limit) }
    ensures read { Gives result from.new ((checked (λ o. o == next) Order entry_offset).at from.old) }
{
    let order = from.bad(WireRule::Order);
    let offset = from.take_u64_to(OFFSET_LIMIT)?;
    if offset != next {
        return Err(FieldFault::Bad(order));
    }
    Ok(offset)
}

/// An entry behind one of the term `next.0`, with the offset `next.1`.
#[tactic(auto, unfolding(crate::specs::BodyForms::entry_behind))]
fn take_entry(from: &mut Reader<'_>, top: u64, next: (u64, u64)) -> Result<Entry, FieldFault>
    ensures small { IfOk result (λ entry. entry.offset ≤ offset_limit) }
    ensures read { Gives result from.new ((entry_behind top next).at from.old) }
{
    let term = take_term(from, top, next.0)?;
    let offset = take_offset(from, next.1)?;
    let time = from.take_u64_to(TIME_LIMIT)?;
    let body = Field::take(from)?;
    Ok(Entry {
        term,
        offset,
        time,
        body,
    })
}

/// The least term and the offset of an entry behind this one.
fn past(entry: &Entry) -> (u64, u64)
    requires { entry.now.offset ≤ offset_limit }
    ensures { result ≡ (entry.now.term, entry.now.offset + 1) }
{
    (entry.term.0, entry.offset + 1)
}

/// How many entries there are: at most 64, or else out of range.
#[tactic(auto, unfolding(crate::specs::BodyForms::entries_number))]
fn take_number(from: &mut Reader<'_>) -> Result<u32, FieldFault>
    ensures { Gives result from.new (entries_number.at from.old) }
{
    let range = from.bad(WireRule::Range);
    let number = from.take_u32()?;
    if number > ENTRIES_LIMIT as u32 {
        return Err(FieldFault::Bad(range));
    }
    Ok(number)
}

/// The entries of an Append of the term `top` from an offset on. Memory is taken for those that came.
#[tactic(auto, unfolding(ox_bytes::specs::Lists::list_by_at))]
pub(crate) fn take_entries(
    from: &mut Reader<'_>,
    top: u64,
    offset: u64,
) -> Result<List<Entry>, FieldFault>
    ensures { Gives result from.new ((entries_from top offset).at from.old) }
{
    let count = take_number(from)?;
    let mut entries = List::new(from.alloc());
    let mut next = (0, offset);
    for _ in 0..count {
        let entry = take_entry(from, top, next)?;
        next = past(&entry);
        entries.push(entry)?;
    }
    Ok(entries)
}

/// Their number, and the entries.
#[tactic(auto, using(ox_bytes::specs::WritingLaws::fronts))]
pub(crate) fn put_entries(
    entries: &List<Entry>,
    top: Term,
    offset: u64,
    to: &mut Writer,
) -> Result<(), NoMemory>
    requires { IsTrue ((entries_from top offset).is_lawful entries.now) }
    ensures { Puts result to.old to.new ((entries_from top offset).text entries.now) }
{
    entries.put(to)
}
