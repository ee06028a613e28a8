//! The parts of a shard, and the command of an entry at them.
ghost use Rattle.std.specs.Prelude.{◌≡◌, ◌<◌, ◌+◌, false, None, All, IsTrue, IfOk, OnOk};
ghost use Rattle.ox_types.specs.Limits.{count_limit};
ghost use Rattle.ox_ops.specs.declared.notice.NoticeBatch.{NoticeBatch};
ghost use Rattle.ox_ops.specs.State.{empty_state};
ghost use Rattle.ox_ops.specs.Apply.{command_on, moved_to, retained, with_batch, apply_entry};
ghost use Rattle.ox_ops.specs.Check.{command_fault};
ghost use Rattle.ox_ops.specs.Forms.{command as command_form};
ghost use Rattle.ox_puts.specs.Records.{IsSound};
ghost use Rattle.ox_shard.specs.Done.{applied_of};
ghost use Rattle.ox_shard.specs.Fits.{FitsCount, is_expire};
ghost use Rattle.ox_shard.specs.Parts.{state_of, IsTied, IsStep};

use crate::done::Done;
use crate::lists::Lists;
use ox_notice::Notices;
use ox_ops::{Notice, OpReply, ShardCommand};
use ox_puts::Records;
use ox_types::{List, NoMemory};
use std::alloc::Global;

/// Time, records, sessions with indexes, and notices. Between commands they are tied to each other.
#[derive(Debug, Drop)]
pub struct Parts {
    pub alloc: Global,
    /// The greatest time of an entry that was applied, in ms.
    pub time: u64,
    pub records: Records,
    pub lists: Lists,
    pub notices: Notices,
}

/// What holds of the records at every time. It costs nothing.
pub fn records_are_sound(records: &Records)
    ensures { IsSound records.now }
{
    let _ = records.next_version();
}

impl Parts {
    pub fn empty(alloc: Global) -> Result<Parts, NoMemory>
        ensures state { IfOk result (λ parts. state_of parts ≡ empty_state) }
        ensures tied { IfOk result (λ parts. IsTied parts) }
    {
        Ok(Parts {
            alloc,
            time: 0,
            records: Records::empty(alloc)?,
            lists: Lists::empty(alloc)?,
            notices: Notices::empty(alloc)?,
        })
    }

    /// The command of an entry at this offset, before its notices are kept.
    fn step(&mut self, offset: u64, command: &ShardCommand) -> Result<Done, NoMemory>
        requires tied { IsTied self.old }
        requires fits { FitsCount offset (state_of self.old) }
        requires offset { offset < count_limit }
        requires lawful { IsTrue (command_form.is_lawful command.now) }
        requires faultless { is_expire command.now ≡ false → command_fault command.now ≡ None }
        ensures done { IfOk result (λ done. applied_of (state_of self.new) done ≡ command_on (state_of self.old) offset command.now) }
        ensures tied { OnOk result (IsTied self.new) }
        ensures step { OnOk result (IsStep offset self.old self.new) }
    {
        match command {
            ShardCommand::Write(batch) => Ok(self.write(batch)?),
            ShardCommand::Open { timeout } => self.open(offset, *timeout),
            ShardCommand::Close { session } => self.close(offset, *session),
            ShardCommand::Expire { session } => self.close(offset, *session),
        }
    }

    fn move_to(&mut self, time: u64)
        requires { IsTied self.old }
        ensures state { state_of self.new ≡ moved_to time (state_of self.old) }
        ensures tied { IsTied self.new }
    {
        self.time = self.time.max(time);
    }

    /// Keeps the notices of an entry, and drops what is too old or too much.
    fn keep(&mut self, offset: u64, notices: List<Notice>) -> Result<(), NoMemory>
        requires tied { IsTied self.old }
        requires later { All (λ (b : NoticeBatch). b.offset < offset) self.old.notices.batches }
        ensures state { OnOk result (state_of self.new ≡ retained (state_of self.old) (with_batch offset self.old.time notices self.old.notices.batches)) }
        ensures tied { OnOk result (IsTied self.new) }
    {
        self.notices.add(offset, self.time, notices)?;
        Ok(())
    }

    /// Applies the command of an entry at this offset and time (ms).
    #[tactic(auto, unfolding(ox_ops::specs::Apply::apply_entry))]
    pub fn apply(
        &mut self,
        offset: u64,
        time: u64,
        command: &ShardCommand,
    ) -> Result<List<OpReply>, NoMemory>
        requires tied { IsTied self.old }
        requires fits { FitsCount offset (state_of self.old) }
        requires offset { offset < count_limit }
        requires lawful { IsTrue (command_form.is_lawful command.now) }
        requires faultless { is_expire command.now ≡ false → command_fault command.now ≡ None }
        ensures state { OnOk result (state_of self.new ≡ (apply_entry (state_of self.old) offset time command.now).state) }
        ensures replies { IfOk result (λ replies. replies ≡ (apply_entry (state_of self.old) offset time command.now).replies) }
        ensures tied { OnOk result (IsTied self.new) }
        ensures fits { OnOk result (FitsCount (offset + 1) (state_of self.new)) }
    {
        self.move_to(time);
        let done = self.step(offset, command)?;
        let Done { replies, notices } = done;
        self.keep(offset, notices)?;
        Ok(replies)
    }
}
