// A leader commits its entries.
ghost use Rattle.std.specs.Prelude.{◌≡◌, ◌++◌, ◌+◌, ◌≤◌, ◌<◌, ◌^◌, ℕ, length, drop, nat_lt, IfOk, OnOk};
ghost use Rattle.ox_types.specs.Durable.{count_of};
ghost use Rattle.ox_types.specs.Timers.{IdsRise};
ghost use Rattle.ox_machine.specs.Store.{state_from, RunsFrom};
ghost use Rattle.ox_wal.specs.State.{state_of};
ghost use Rattle.ox_solo_replica.specs.Sound.{IsSound};
ghost use Rattle.ox_solo_replica.specs.Advance.{acks_of, still_pending};
ghost use Rattle.ox_solo_replica.specs.Moving as moves;

use crate::applying::{apply_entries, drop_settled};
use crate::leading::Leading;
use crate::live::Live;
use crate::output::{Answered, Outgoing};
use ox_machine::Machine;
use ox_timer::Timers;
use ox_types::{CoordId, List, NoMemory, Peer, Term};
use ox_wal::Log;
use ox_wire::Body;
use std::alloc::Global;

/// The timers of the machine: all start where commit reaches begin, and else those that ran go on.
fn retime<M: Machine>(
    alloc: Global,
    machine: &M,
    opens: bool,
    now: u64,
    timers: &mut Timers,
) -> Result<(), NoMemory>
    requires { IdsRise (M.meaning.timers machine.now) }
    ensures { OnOk result (timers.new ≡ moves.timers_after M.meaning opens now machine.now timers.old) }
{
    let running = machine.timers()?;
    if opens {
        *timers = Timers::start(alloc, running.as_slice(), now)?;
        Ok(())
    } else {
        timers.retime(running.as_slice(), now)
    }
}

/// The coordinator is told where commit reaches begin.
fn tell_ready(
    opens: bool,
    term: Term,
    chief: CoordId,
    sends: &mut List<Outgoing>,
) -> Result<(), NoMemory>
    ensures { OnOk result (sends.new ≡ sends.old ++ moves.ready_to opens term chief) }
{
    if opens {
        sends.push(Outgoing {
            to: Peer::Coordinator(chief),
            body: Body::Ready { term },
        })?;
    }
    Ok(())
}

/// The entries behind so many are applied, and clients that wait for them are told.
fn commit_from<M: Machine>(
    alloc: Global,
    log: &Log,
    from: u64,
    now: u64,
    machine: &mut M,
    leading: &mut Leading,
    sends: &mut List<Outgoing>,
    replies: &mut List<Answered>,
) -> Result<(), NoMemory>
    requires within { from ≤ length log.now.entries.items }
    requires fits { M.meaning.fits from machine.old }
    requires runs { RunsFrom from (drop from log.now.entries.items) }
    ensures machine { OnOk result (machine.new ≡ state_from M.meaning machine.old (drop from log.now.entries.items)) }
    ensures leading { OnOk result (leading.new ≡ moves.leading_after M.meaning (length log.now.entries.items) now (nat_lt from leading.old.begin) machine.new leading.old) }
    ensures sends { OnOk result (sends.new ≡ sends.old ++ moves.ready_to (nat_lt from leading.old.begin) log.now.term leading.old.chief) }
    ensures replies { OnOk result (replies.new ≡ replies.old ++ acks_of M.meaning log.now.term leading.old.pending machine.old (drop from log.now.entries.items)) }
    ensures fits { OnOk result (M.meaning.fits (length log.now.entries.items) machine.new) }
{
    let opens = from < leading.begin;
    let entries = &log.entries[from as usize..];
    apply_entries(
        alloc,
        log.term,
        from,
        leading.pending.as_slice(),
        entries,
        machine,
        replies,
    )?;
    drop_settled(alloc, &mut leading.pending, log.entries.len() as u64);
    retime(alloc, machine, opens, now, &mut leading.timers)?;
    tell_ready(opens, log.term, leading.chief, sends)
}

/// Where this leads, all its entries are committed and applied. It costs those that weren't.
pub fn advance<M: Machine>(
    alloc: Global,
    log: &Log,
    live: &mut Live<M>,
    sends: &mut List<Outgoing>,
    replies: &mut List<Answered>,
) -> Result<(), NoMemory>
    requires sound { IsSound M.meaning (state_of log.now) live.old }
    ensures live { OnOk result (live.new ≡ (moves.advance M.meaning (state_of log.now) live.old).live) }
    ensures sends { OnOk result (sends.new ≡ sends.old ++ (moves.advance M.meaning (state_of log.now) live.old).sends) }
    ensures replies { OnOk result (replies.new ≡ replies.old ++ (moves.advance M.meaning (state_of log.now) live.old).replies) }
    ensures sound { OnOk result (IsSound M.meaning (state_of log.now) live.new) }
{
    let count = log.entries.len() as u64;
    let (from, now) = (live.commit, live.now);
    if let Some(leading) = &mut live.leading {
        if from < count {
            commit_from(
                alloc,
                log,
                from,
                now,
                &mut live.machine,
                leading,
                sends,
                replies,
            )?;
            live.commit = count;
        }
    }
    Ok(())
}
