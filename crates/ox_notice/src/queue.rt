//! The queue of batches: the newest come behind, the oldest go in front.
ghost use Rattle.std.specs.Prelude.{◌≡◌, ◌≤◌, ◌++◌, ◌∷◌, [], OnOk, OnErr, sum_by};
ghost use Rattle.ox_ops.specs.Weight.{batch_weight, notice_weight};
ghost use Rattle.ox_ops.specs.Apply.{kept_weight};
ghost use Rattle.ox_notice.specs.Trim.{first_goes as goes, without_first, trim};

use crate::weight::weigh_all;
use ox_ops::NoticeBatch;
use ox_types::NoMemory;
use std::alloc::Global;
use std::collections::VecDeque;
use std::marker::Model;

/// How long a batch of notices is kept, in ms.
const KEPT_TIME: u64 = 3_600_000;

/// How much the kept batches may weigh.
pub const KEPT_WEIGHT: u64 = 67_108_864;

#[derive(Debug, Drop)]
pub struct Queue {
    batches: VecDeque<NoticeBatch>,
    low: u64,
    /// What the batches weigh.
    weight: u64,
}

impl Model for Queue {
    ghost use Rattle.ox_notice.specs.Kept.{Kept, IsCounted};

    ghost Value = { Kept };

    ghost view = { λ q. record { low = q.low; batches = q.batches.items } };

    ghost invariant = { λ q. IsCounted q.batches.items q.weight };
}

impl Queue {
    pub fn empty(alloc: Global) -> Queue
        ensures { result ≡ record { low = 0; batches = [] } }
    {
        Queue {
            batches: VecDeque::new(alloc),
            low: 0,
            weight: 0,
        }
    }

    pub fn low(&self) -> u64
        ensures { result ≡ self.now.low }
    {
        self.low
    }

    pub fn batches(&self) -> &VecDeque<NoticeBatch>
        ensures { result.now.items ≡ self.now.batches }
    {
        &self.batches
    }

    /// Adds a batch of this weight.
    pub fn push(&mut self, batch: NoticeBatch, weight: u64) -> Result<(), NoMemory>
        requires weight { weight ≡ batch_weight batch }
        requires light { weight ≤ kept_weight }
        requires room { sum_by batch_weight self.old.batches ≤ kept_weight }
        ensures ok { OnOk result (self.new ≡ record { low = self.old.low; batches = self.old.batches ++ batch ∷ [] }) }
        ensures err { OnErr result (self.new ≡ self.old) }
    {
        self.batches.push_back(batch)?;
        self.weight += weight;
        Ok(())
    }

    /// Whether the first batch is too old at this time (ms), or all of them weigh too much.
    fn first_goes(&self, time: u64) -> bool
        ensures { result ≡ goes time self.now.batches }
    {
        match self.batches.front() {
            None => false,
            Some(first) => {
                time.saturating_sub(KEPT_TIME) > first.time || self.weight > KEPT_WEIGHT
            }
        }
    }

    fn drop_first(&mut self)
        ensures { self.new ≡ without_first self.old }
    {
        if let Some(first) = self.batches.pop_front() {
            self.weight -= weigh_all(first.notices.as_slice());
            self.low = first.offset;
        }
    }

    /// Drops the batches that are too old at this time (ms), and then the oldest while they weigh too much.
    pub fn drop_old(&mut self, time: u64)
        ensures { self.new ≡ trim time self.old.low self.old.batches }
    {
        while self.first_goes(time) {
            self.drop_first();
        }
    }

    /// Drops all, up to this offset.
    pub fn drop_all(&mut self, offset: u64)
        ensures { self.new ≡ record { low = offset; batches = [] } }
    {
        self.batches.clear();
        self.weight = 0;
        self.low = offset;
    }
}
