// A tick: the clock moves, and a leader appends the expiry of a timer that ran out.
ghost use Rattle.std.specs.Prelude.{◌≡◌, ◌≤◌, Some, IfOk};
ghost use Rattle.ox_solo_replica.specs.Keeping.{IsSmall};
ghost use Rattle.ox_solo_replica.specs.Plans.{planned};
ghost use Rattle.ox_solo_replica.specs.Tick as rows;

use crate::client::{command_blocks, room, see_bytes};
use crate::live::Live;
use crate::plan::Plan;
use ox_bytes::{COUNT_LIMIT, TIME_LIMIT};
use ox_machine::Machine;
use ox_types::{Entry, EntryBody, LogView, NoMemory};
use std::alloc::Global;

/// The clock moves.
fn move_clock<M>(live: &mut Live<M>, ms: u64)
    ensures { live.new ≡ rows.time_at live.old ms }
{
    live.now = live.now.max(ms.min(TIME_LIMIT));
}

/// The expiry of a timer that ran out is appended, where the log has room.
fn expire<M: Machine>(
    alloc: Global,
    view: &LogView,
    live: &mut Live<M>,
    id: u64,
) -> Result<Plan, NoMemory>
    ensures row { IfOk result (λ plan. planned plan live.new ≡ rows.expires_at M.meaning view.now live.old id) }
    ensures small { IfOk result (λ plan. IsSmall plan.batch.items) }
{
    let command = M::expiry(alloc, id);
    let bytes = M::encode(alloc, &command)?;
    see_bytes(bytes.as_slice());
    let need = command_blocks(bytes.len());
    if COUNT_LIMIT <= view.count || room(view) < need {
        return Ok(Plan::silent(alloc, true));
    }
    if let Some(leading) = &mut live.leading {
        leading.timers.note_expired(id);
    }
    let entry = Entry {
        term: view.term,
        offset: view.count,
        time: live.now,
        body: EntryBody::Command(bytes),
    };
    Plan::append(alloc, entry)
}

/// The row of a tick.
pub fn tick<M: Machine>(
    alloc: Global,
    view: &LogView,
    live: &mut Live<M>,
    ms: u64,
) -> Result<Plan, NoMemory>
    ensures row { IfOk result (λ plan. planned plan live.new ≡ rows.tick M.meaning view.now live.old ms) }
    ensures small { IfOk result (λ plan. IsSmall plan.batch.items) }
{
    move_clock(live, ms);
    let due = match &live.leading {
        None => return Ok(Plan::silent(alloc, false)),
        Some(leading) => {
            if view.commit < leading.begin {
                return Ok(Plan::silent(alloc, true));
            }
            leading.timers.due(live.now)
        }
    };
    match due {
        None => Ok(Plan::silent(alloc, true)),
        Some(id) => expire(alloc, view, live, id),
    }
}
