//! Writes: their operations in order.
ghost use Rattle.std.specs.Prelude.{◌≡◌, ◌≤◌, ◌<◌, ◌+◌, ◌^◌, length, IsTrue, IfOk, OnOk};
ghost use Rattle.std.specs.List.{list_all};
ghost use Rattle.ox_ops.specs.Operation.{put_on, delete_on, range_on};
ghost use Rattle.ox_ops.specs.Apply.{and_then, each_on, batch_on};
ghost use Rattle.ox_shard.specs.Done.{applied_of};
ghost use Rattle.ox_shard.specs.Fits.{is_ready};
ghost use Rattle.ox_shard.specs.Parts.{state_of, IsTied, IsBeside};

use crate::done::Done;
use crate::parts::{Parts, records_are_sound};
use ox_ops::{Delete, KeyRange, Put, WriteBatch};
use ox_types::NoMemory;

impl Parts {
    /// What a put replaces leaves its session and its indexes, and what it stores joins its own.
    fn put(&mut self, done: &mut Done, put: &Put) -> Result<(), NoMemory>
        requires tied { IsTied self.old }
        requires versions { self.old.records.next_version < 2 ^ 63 }
        requires ready { IsTrue (is_ready put.now) }
        ensures then { OnOk result (applied_of (state_of self.new) done.new ≡ and_then (applied_of (state_of self.old) done.old) (put_on (state_of self.old) put.now)) }
        ensures tied { OnOk result (IsTied self.new) }
        ensures beside { OnOk result (IsBeside self.old self.new) }
        ensures versions { OnOk result (self.new.records.next_version ≤ self.old.records.next_version + 1) }
    {
        records_are_sound(&self.records);
        let live = self.lists.is_live(put.session);
        let change = self.records.put(put, live, self.time)?;
        self.lists.forget_all(change.gone.as_slice());
        self.lists.enter(put, &change.reply)?;
        done.add(change)?;
        Ok(())
    }

    fn put_all(&mut self, done: &mut Done, puts: &[Put]) -> Result<(), NoMemory>
        requires tied { IsTied self.old }
        requires versions { self.old.records.next_version + length puts.now ≤ 2 ^ 63 }
        requires ready { IsTrue (list_all is_ready puts.now) }
        ensures then { OnOk result (applied_of (state_of self.new) done.new ≡ each_on put_on (applied_of (state_of self.old) done.old) puts.now) }
        ensures tied { OnOk result (IsTied self.new) }
        ensures beside { OnOk result (IsBeside self.old self.new) }
        ensures versions { OnOk result (self.new.records.next_version ≤ self.old.records.next_version + length puts.now) }
    {
        for put in puts {
            self.put(done, put)?;
        }
        Ok(())
    }

    fn delete(&mut self, done: &mut Done, delete: &Delete) -> Result<(), NoMemory>
        requires { IsTied self.old }
        ensures then { OnOk result (applied_of (state_of self.new) done.new ≡ and_then (applied_of (state_of self.old) done.old) (delete_on (state_of self.old) delete.now)) }
        ensures tied { OnOk result (IsTied self.new) }
        ensures beside { OnOk result (IsBeside self.old self.new) }
        ensures versions { OnOk result (self.new.records.next_version ≡ self.old.records.next_version) }
    {
        records_are_sound(&self.records);
        let change = self.records.delete(delete)?;
        self.lists.forget_all(change.gone.as_slice());
        done.add(change)?;
        Ok(())
    }

    fn delete_all(&mut self, done: &mut Done, deletes: &[Delete]) -> Result<(), NoMemory>
        requires { IsTied self.old }
        ensures then { OnOk result (applied_of (state_of self.new) done.new ≡ each_on delete_on (applied_of (state_of self.old) done.old) deletes.now) }
        ensures tied { OnOk result (IsTied self.new) }
        ensures beside { OnOk result (IsBeside self.old self.new) }
        ensures versions { OnOk result (self.new.records.next_version ≡ self.old.records.next_version) }
    {
        for delete in deletes {
            self.delete(done, delete)?;
        }
        Ok(())
    }

    fn delete_range(&mut self, done: &mut Done, range: &KeyRange) -> Result<(), NoMemory>
        requires { IsTied self.old }
        ensures then { OnOk result (applied_of (state_of self.new) done.new ≡ and_then (applied_of (state_of self.old) done.old) (range_on (state_of self.old) range.now)) }
        ensures tied { OnOk result (IsTied self.new) }
        ensures beside { OnOk result (IsBeside self.old self.new) }
        ensures versions { OnOk result (self.new.records.next_version ≡ self.old.records.next_version) }
    {
        records_are_sound(&self.records);
        let change = self.records.delete_range(range)?;
        self.lists.forget_all(change.gone.as_slice());
        done.add(change)?;
        Ok(())
    }

    fn delete_ranges(&mut self, done: &mut Done, ranges: &[KeyRange]) -> Result<(), NoMemory>
        requires { IsTied self.old }
        ensures then { OnOk result (applied_of (state_of self.new) done.new ≡ each_on range_on (applied_of (state_of self.old) done.old) ranges.now) }
        ensures tied { OnOk result (IsTied self.new) }
        ensures beside { OnOk result (IsBeside self.old self.new) }
        ensures versions { OnOk result (self.new.records.next_version ≡ self.old.records.next_version) }
    {
        for range in ranges {
            self.delete_range(done, range)?;
        }
        Ok(())
    }

    /// Puts, then deletes, then range deletes, each with its reply.
    pub(crate) fn write(&mut self, batch: &WriteBatch) -> Result<Done, NoMemory>
        requires tied { IsTied self.old }
        requires versions { self.old.records.next_version + length batch.now.puts ≤ 2 ^ 63 }
        requires ready { IsTrue (list_all is_ready batch.now.puts) }
        ensures done { IfOk result (λ done. applied_of (state_of self.new) done ≡ batch_on (state_of self.old) batch.now) }
        ensures tied { OnOk result (IsTied self.new) }
        ensures beside { OnOk result (IsBeside self.old self.new) }
        ensures versions { OnOk result (self.new.records.next_version ≤ self.old.records.next_version + length batch.now.puts) }
    {
        let mut done = Done::nothing(self.alloc);
        self.put_all(&mut done, batch.puts.as_slice())?;
        self.delete_all(&mut done, batch.deletes.as_slice())?;
        self.delete_ranges(&mut done, batch.ranges.as_slice())?;
        Ok(done)
    }
}
