//! The state of a shard.
ghost use Rattle.std.specs.Prelude.{◌≡◌, ◌<◌, ◌+◌, map, false, None, IsTrue, IfOk, OnOk};
ghost use Rattle.ox_types.specs.Limits.{count_limit};
ghost use Rattle.ox_ops.specs.State.{empty_state, timer_of};
ghost use Rattle.ox_ops.specs.Apply.{apply_entry};
ghost use Rattle.ox_ops.specs.Answer.{answer_to};
ghost use Rattle.ox_ops.specs.Check.{command_fault};
ghost use Rattle.ox_ops.specs.Forms.{command as command_form};
ghost use Rattle.ox_shard.specs.Fits.{FitsCount, is_expire};

use crate::parts::Parts;
use ox_ops::{ShardAnswer, ShardCommand, ShardQuery, ShardReply};
use ox_types::{EntryId, List, NoMemory, Timer};
use std::alloc::Global;
use std::marker::Model;

/// Whether the command is an expiry, which a leader makes: `check` finds a fault in a client's. It costs nothing.
pub fn is_expiry(command: &ShardCommand) -> bool
    ensures { result ≡ is_expire command.now }
{
    matches!(command, ShardCommand::Expire { .. })
}

/// A shard: the one-thread store (docs/STORE.md). Contracts see it as the state of the definitions.
#[derive(Debug, Drop)]
pub struct ShardMachine {
    parts: Parts,
    /// Whether each command that was begun was ended. Where memory ran out in one, the parts may not fit each other.
    whole: bool,
}

impl Model for ShardMachine {
    ghost use Rattle.std.specs.Prelude.{◌≡◌, true};
    ghost use Rattle.ox_ops.specs.State.{ShardState};
    ghost use Rattle.ox_shard.specs.Parts.{state_of, IsTied};

    ghost Value = { ShardState };

    ghost view = { λ m. state_of m.parts };

    ghost invariant = { λ m. m.whole ≡ true → IsTied m.parts };
}

impl ShardMachine {
    pub fn empty(alloc: Global) -> Result<ShardMachine, NoMemory>
        ensures { IfOk result (λ machine. machine ≡ empty_state) }
    {
        Ok(ShardMachine {
            parts: Parts::empty(alloc)?,
            whole: true,
        })
    }

    /// Applies the command of an entry with this time (ms), and gives a reply for each operation. A put or a delete costs
    /// look-ups in the ordered table, and one for its session and for each index entry, and work proportional to the record; a
    /// range delete its own length; a close its members; retention what it drops. After an `Err` the machine only answers
    /// `Err`: drop it.
    pub fn apply(
        &mut self,
        id: EntryId,
        time: u64,
        command: &ShardCommand,
    ) -> Result<ShardReply, NoMemory>
        requires fits { FitsCount id.offset self.old }
        requires offset { id.offset < count_limit }
        requires lawful { IsTrue (command_form.is_lawful command.now) }
        // A client's command is checked; a leader makes expiries.
        requires faultless { is_expire command.now ≡ false → command_fault command.now ≡ None }
        ensures state { OnOk result (self.new ≡ (apply_entry self.old id.offset time command.now).state) }
        ensures replies { IfOk result (λ reply. reply.ops ≡ (apply_entry self.old id.offset time command.now).replies) }
        ensures fits { OnOk result (FitsCount (id.offset + 1) self.new) }
    {
        if !self.whole {
            return Err(NoMemory);
        }
        self.whole = false;
        let replies = self.parts.apply(id.offset, time, command)?;
        self.whole = true;
        Ok(ShardReply { ops: replies })
    }

    /// The answer to a query, which changes nothing. A get costs a look-up and a copy of the record, by an index one look-up
    /// more; a list, a scan and notices cost their page.
    pub fn ask(&self, query: &ShardQuery) -> Result<ShardAnswer, NoMemory>
        ensures { IfOk result (λ answer. answer ≡ answer_to self.now query.now) }
    {
        if !self.whole {
            return Err(NoMemory);
        }
        self.parts.answer(query)
    }

    /// The open sessions by rising id with their timeouts (ms), at their cost.
    pub fn timers(&self) -> Result<List<Timer>, NoMemory>
        ensures { IfOk result (λ timers. timers ≡ map timer_of self.now.sessions) }
    {
        self.parts.lists.sessions.timers()
    }
}
