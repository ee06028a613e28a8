//! Where a timer stands, and the first one that is due.
ghost use Rattle.std.specs.Prelude.{◌≡◌, ◌≢◌, ◌<◌, length, All, IfSome, IfNone};
ghost use Rattle.std.specs.List.{HoldsAt};
ghost use Rattle.ox_timer.specs.Order.{RunningRise};
ghost use Rattle.ox_timer.specs.Timers.{due};

use crate::running::Running;

/// The place of the timer with this id, found by halving.
pub fn place_of(running: &[Running], id: u64) -> Option<usize>
    requires { RunningRise running.now }
    ensures within { IfSome result (λ at. at < length running.now) }
    ensures found { IfSome result (λ at. HoldsAt (λ r. r.id ≡ id) running.now at) }
    ensures none { IfNone result (All (λ r. r.id ≢ id) running.now) }
{
    let place = running.partition_point(|timer| timer.id < id);
    if place < running.len() && running[place].id == id {
        Some(place)
    } else {
        None
    }
}

/// The id of the first timer that ran out and whose expiry isn't noted.
pub fn first_due(running: &[Running], now: u64) -> Option<u64>
    ensures { result ≡ due now running.now }
{
    for timer in running {
        if !timer.expired && timer.since <= now && timer.timeout <= now - timer.since {
            return Some(timer.id);
        }
    }
    None
}
