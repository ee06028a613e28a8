//! The batches that are kept, and the low mark.
ghost use Rattle.std.specs.Prelude.{◌≡◌, ◌<◌, ◌≤◌, [], IfOk, IfErr, OnOk, OnErr, All};
ghost use Rattle.ox_ops.specs.declared.notice.NoticeBatch.{NoticeBatch};
ghost use Rattle.ox_ops.specs.State.{ShardState};
ghost use Rattle.ox_ops.specs.Apply.{retained, with_batch};
ghost use Rattle.ox_ops.specs.declared.answer.ShardAnswer.TheVariants as answer;
ghost use Rattle.ox_ops.specs.Answer.{notices_after};
ghost use Rattle.ox_notice.specs.Kept.{kept_of};
ghost use Rattle.ox_notice.specs.Refused.{Refuses};

use crate::queue::{KEPT_WEIGHT, Queue};
use crate::reading::{count_up_to, page_from};
use crate::weight::weigh_all;
use ox_ops::{Notice, NoticeBatch, NoticeItem};
use ox_types::{List, NoMemory};
use std::alloc::Global;
use std::marker::Model;
use thiserror::Error;

/// Notices from there on are no longer kept: the offset that was asked, and the low mark above it.
#[derive(Clone, Copy, Debug, PartialEq, Eq)]
pub struct NotRetained {
    pub asked: u64,
    pub low: u64,
}

/// Why there is no page of notices.
#[derive(Clone, Copy, Debug, PartialEq, Eq, Error)]
pub enum AfterFault {
    #[error("notices after {} are no longer kept: the low mark is {}", .0.asked, .0.low)]
    NotRetained(NotRetained),
    #[error("memory ran out")]
    NoMemory,
}

impl From<NoMemory> for AfterFault {
    ghost use Rattle.std.specs.Prelude.{◌≡◌};
    ghost use Rattle.ox_notice.specs.declared.notices.AfterFault.TheVariants as fault;

    ghost from_gives = { λ _ e. e ≡ fault.NoMemory };

    fn from(_e: NoMemory) -> AfterFault {
        AfterFault::NoMemory
    }
}

/// A page of notices. It has `more` where an item was left out behind it.
#[derive(Debug, Drop)]
pub struct NoticePage {
    pub items: List<NoticeItem>,
    pub more: bool,
}

/// The notices that a shard keeps, as a queue (docs/STORE.md).
#[derive(Debug, Drop)]
pub struct Notices {
    alloc: Global,
    queue: Queue,
}

impl Model for Notices {
    ghost use Rattle.ox_notice.specs.Kept.{Kept, IsHeld};

    ghost Value = { Kept };

    ghost view = { λ n. n.queue };

    ghost invariant = { λ n. IsHeld n.queue.batches };
}

impl Notices {
    pub fn empty(alloc: Global) -> Result<Notices, NoMemory>
        ensures { IfOk result (λ notices. notices ≡ record { low = 0; batches = [] }) }
    {
        Ok(Notices {
            alloc,
            queue: Queue::empty(alloc),
        })
    }

    /// The offset of the last batch that was dropped, or 0.
    pub fn low(&self) -> u64
        ensures { result ≡ self.now.low }
    {
        self.queue.low()
    }

    /// Adds the notices of an entry, where there are any, with the store's time after it (ms), and drops what is too old or
    /// too much. An entry without notices only moves the retention. It costs the new batch and what it drops. Where memory
    /// runs out, everything stays as it was.
    pub fn add(&mut self, offset: u64, time: u64, batch: List<Notice>) -> Result<(), NoMemory>
        requires later { All (λ (b : NoticeBatch). b.offset < offset) self.old.batches }
        requires not_earlier { All (λ (b : NoticeBatch). b.time ≤ time) self.old.batches }
        ensures kept { OnOk result ((s : ShardState) → s.time ≡ time → s.low ≡ self.old.low → kept_of (retained s (with_batch offset time batch self.old.batches)) ≡ self.new) }
        ensures err { OnErr result (self.new ≡ self.old) }
    {
        if batch.is_empty() {
            self.queue.drop_old(time);
            return Ok(());
        }
        let weight = weigh_all(batch.as_slice());
        if weight > KEPT_WEIGHT {
            self.queue.drop_all(offset);
            return Ok(());
        }
        let batch = NoticeBatch {
            offset,
            time,
            notices: batch,
        };
        self.queue.push(batch, weight)?;
        self.queue.drop_old(time);
        Ok(())
    }

    /// The notices of entries above this offset, without the first ones that are skipped, as a page: at most 1,000 items and
    /// 3,145,728 bytes. It costs a binary search, the page, and a step for each batch that is skipped.
    pub fn after(&self, offset: u64, skip: u64) -> Result<NoticePage, AfterFault>
        // The page of the definitions, for every shard that keeps these notices.
        ensures page { IfOk result (λ page. (s : ShardState) → kept_of s ≡ self.now → notices_after s offset skip ≡ answer.Notices page.items page.more) }
        // The refusal of the definitions, unless memory runs out.
        ensures refused { IfErr result (λ fault. (s : ShardState) → kept_of s ≡ self.now → Refuses fault (notices_after s offset skip)) }
    {
        let low = self.queue.low();
        if offset < low {
            return Err(AfterFault::NotRetained(NotRetained { asked: offset, low }));
        }
        let batches = self.queue.batches();
        let from = count_up_to(batches, offset);
        let page = page_from(self.alloc, batches, from, skip)?;
        let (items, more) = page.finish();
        Ok(NoticePage { items, more })
    }
}
