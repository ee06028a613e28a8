//! What notices weigh.
ghost use Rattle.std.specs.Prelude.{◌≡◌, ◌-◌, ◌^◌, ◌≤◌, ◌+◌, min, length, sum_by};
ghost use Rattle.ox_ops.specs.Weight.{lo_weight, hi_weight, notice_weight};

use ox_ops::{Hi, KeyRange, Lo, Notice};
use ox_types::Key;

fn weight_of(key: &Key) -> u64
    ensures exact { result ≡ length key.now }
    ensures small { result ≤ 4096 }
{
    key.bytes().len() as u64
}

fn range_weight(range: &KeyRange) -> u64
    ensures exact { result ≡ lo_weight range.now.lo + hi_weight range.now.hi }
    ensures small { result ≤ 8192 }
{
    let lo = match &range.lo {
        Lo::Start => 0,
        Lo::At(key) => weight_of(key),
        Lo::Past(key) => weight_of(key),
    };
    let hi = match &range.hi {
        Hi::End => 0,
        Hi::Before(key) => weight_of(key),
    };
    lo + hi
}

fn weigh(notice: &Notice) -> u64
    ensures exact { result ≡ notice_weight notice.now }
    ensures small { result ≤ 8224 }
{
    match notice {
        Notice::Created { key, .. } => weight_of(key) + 32,
        Notice::Modified { key, .. } => weight_of(key) + 32,
        Notice::Deleted { key } => weight_of(key) + 32,
        Notice::Ranged { range } => range_weight(range) + 32,
    }
}

/// What these notices weigh, or the greatest number where that is more.
pub fn weigh_all(notices: &[Notice]) -> u64
    ensures { result ≡ min (sum_by notice_weight notices.now) (2 ^ 64 - 1) }
{
    let mut total = 0u64;
    for notice in notices {
        total = total.saturating_add(weigh(notice));
    }
    total
}
