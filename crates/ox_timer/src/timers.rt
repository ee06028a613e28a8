ghost use Rattle.std.specs.Prelude.{◌≡◌, [], IfOk, OnOk, OnErr};
ghost use Rattle.ox_types.specs.Timers.{IdsRise};
ghost use Rattle.ox_timer.specs.Order.{RunningRise};
ghost use Rattle.ox_timer.specs.Timers.{started, retimed, heard, noted, due};

use crate::find::{first_due, place_of};
use crate::merge::merged;
use crate::running::Running;
use ox_types::{NoMemory, Timer};
use std::alloc::Global;
use std::marker::Model;

/// The timers that run at a leader, by rising id (docs/REPLICATION.md). Times are in ms. Contracts see them as their list.
#[derive(Debug, Drop)]
pub struct Timers {
    alloc: Global,
    items: Vec<Running>,
}

impl Model for Timers {
    ghost use Rattle.std.specs.Prelude.{List};
    ghost use Rattle.ox_timer.specs.declared.running.Running.{Running};
    ghost use Rattle.ox_timer.specs.Order.{RunningRise};

    ghost Value = { List Running };

    ghost view = { λ t. t.items.items };

    ghost invariant = { λ t. RunningRise t.items.items };
}

impl Timers {
    pub fn empty(alloc: Global) -> Timers
        ensures { result ≡ [] }
    {
        Timers {
            alloc,
            items: Vec::new(alloc),
        }
    }

    /// The timers of a machine, all of which start now. It costs their number.
    pub fn start(alloc: Global, timers: &[Timer], now: u64) -> Result<Timers, NoMemory>
        requires { IdsRise timers.now }
        ensures { IfOk result (λ running. running ≡ started now timers.now) }
    {
        let items = merged(alloc, &[], timers, now)?;
        Ok(Timers { alloc, items })
    }

    /// Goes on with the timers of a machine: one that ran already goes on, another one starts now, and one that is gone runs
    /// no more. It goes once through both lists. Where memory runs out, nothing changes.
    pub fn retime(&mut self, timers: &[Timer], now: u64) -> Result<(), NoMemory>
        requires { IdsRise timers.now }
        ensures ok { OnOk result (self.new ≡ retimed now timers.now self.old) }
        ensures err { OnErr result (self.new ≡ self.old) }
    {
        let items = merged(self.alloc, self.items.as_slice(), timers, now)?;
        self.items = items;
        Ok(())
    }

    /// Starts the timer with this id anew; where there is none, nothing changes. It is found by halving.
    pub fn hear(&mut self, id: u64, now: u64)
        ensures { self.new ≡ heard id now self.old }
    {
        if let Some(at) = place_of(self.items.as_slice(), id) {
            self.items[at].since = now;
        }
    }

    /// Notes that the log has the expiry of the timer with this id; where there is none, nothing changes. It is found by
    /// halving.
    pub fn note_expired(&mut self, id: u64)
        ensures { self.new ≡ noted id self.old }
    {
        if let Some(at) = place_of(self.items.as_slice(), id) {
            self.items[at].expired = true;
        }
    }

    /// The least id of a timer that ran out and whose expiry isn't noted. It goes once through the list, and takes no memory.
    pub fn due(&self, now: u64) -> Option<u64>
        ensures { result ≡ due now self.now }
    {
        first_due(self.items.as_slice(), now)
    }

    /// The timers by rising id.
    pub fn as_slice(&self) -> &[Running]
        ensures same { result.now ≡ self.now }
        ensures rise { RunningRise result.now }
    {
        self.items.as_slice()
    }
}
