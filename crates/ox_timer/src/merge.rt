//! The timers of a machine beside those that ran before.
ghost use Rattle.std.specs.Prelude.{◌≡◌, ◌≤◌, length, drop, slice_get, IfOk};
ghost use Rattle.std.specs.Option.{ForSome};
ghost use Rattle.ox_types.specs.Timers.{IdsRise};
ghost use Rattle.ox_timer.specs.Order.{RunningRise};
ghost use Rattle.ox_timer.specs.Timers.{from_id, goes_on, running_at, retimed};

use crate::running::Running;
use ox_types::{NoMemory, Timer};
use std::alloc::Global;

/// The place from `at` on of the first id that isn't below this one.
fn place_from(running: &[Running], at: usize, id: u64) -> usize
    requires { at ≤ length running.now }
    ensures within { result ≤ length running.now }
    ensures behind { drop result running.now ≡ from_id id (drop at running.now) }
    ensures reached { ForSome (slice_get running.now result) (λ r. id ≤ r.id) }
{
    for i in at..running.len() {
        if running[i].id >= id {
            return i;
        }
    }
    running.len()
}

/// The timer as it runs from now on. It ran as the one at `at`, or it didn't run.
fn going_on(running: &[Running], at: usize, timer: &Timer, now: u64) -> Running
    requires rise { RunningRise running.now }
    requires reached { ForSome (slice_get running.now at) (λ r. timer.now.id ≤ r.id) }
    ensures { result ≡ goes_on now timer.now (running_at timer.now.id (drop at running.now)) }
{
    if at < running.len() && running[at].id == timer.id {
        return Running {
            id: timer.id,
            timeout: timer.timeout,
            since: running[at].since,
            expired: running[at].expired,
        };
    }
    Running {
        id: timer.id,
        timeout: timer.timeout,
        since: now,
        expired: false,
    }
}

/// The timers of a machine, of which those that ran go on, and the other ones start now. It goes once through both lists.
pub fn merged(
    alloc: Global,
    running: &[Running],
    timers: &[Timer],
    now: u64,
) -> Result<Vec<Running>, NoMemory>
    requires timers_rise { IdsRise timers.now }
    requires running_rise { RunningRise running.now }
    ensures value { IfOk result (λ next. next.items ≡ retimed now timers.now running.now) }
    ensures rise { IfOk result (λ next. RunningRise next.items) }
{
    let mut next = Vec::new(alloc);
    let mut at = 0;
    for timer in timers {
        at = place_from(running, at, timer.id);
        next.push(going_on(running, at, timer, now))?;
    }
    Ok(next)
}
