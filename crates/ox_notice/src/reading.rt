//! Reading on from a place.
ghost use Rattle.std.specs.Prelude.{◌≡◌, ◌-◌, ◌++◌, ℕ, List, map, drop, filter, length, nat_lt, IfOk, OnOk};
ghost use Rattle.std.specs.List.{flat_map};
ghost use Rattle.ox_ops.specs.declared.notice.NoticeItem.{NoticeItem};
ghost use Rattle.ox_ops.specs.declared.notice.NoticeBatch.{NoticeBatch};
ghost use Rattle.ox_ops.specs.Answer.{items_in};
ghost use Rattle.ox_ops.specs.Page.{item_size};
ghost use Rattle.ox_ops.specs.Filling.{Holds};
ghost use Rattle.ox_notice.specs.Kept.{IsOrdered, item_at};

use ox_ops::{Notice, NoticeBatch, NoticeItem, Page, notice_size};
use ox_types::NoMemory;
use std::alloc::Global;
use std::collections::VecDeque;

/// How many of the batches have an offset up to this one, by a binary search.
pub fn count_up_to(batches: &VecDeque<NoticeBatch>, offset: u64) -> usize
    requires { IsOrdered 0 0 batches.now.items }
    ensures { filter (λ (b : NoticeBatch). nat_lt offset b.offset) batches.now.items ≡ drop result batches.now.items }
{
    batches.partition_point(|batch| batch.offset <= offset)
}

fn item_of(offset: u64, notice: &Notice) -> Result<NoticeItem, NoMemory>
    ensures { IfOk result (λ item. item ≡ record { offset = offset; notice = notice.now }) }
{
    let notice = notice.try_clone()?;
    Ok(NoticeItem { offset, notice })
}

/// Offers the notices of an entry, one by one, until one is left out.
fn add_notices(page: &mut Page<NoticeItem>, offset: u64, notices: &[Notice]) -> Result<(), NoMemory>
    ensures { OnOk result ((offered : List NoticeItem) → Holds item_size page.old offered → Holds item_size page.new (offered ++ map (item_at offset) notices.now)) }
{
    for notice in notices {
        if !page.offer(notice_size(notice)) {
            return Ok(());
        }
        page.push(item_of(offset, notice)?)?;
    }
    Ok(())
}

fn offset_of(batch: &NoticeBatch) -> u64
    ensures { result ≡ batch.now.offset }
{
    batch.offset
}

/// Offers the notices of a batch but the first ones that are skipped, and says how many are still to be skipped.
fn add_batch(page: &mut Page<NoticeItem>, batch: &NoticeBatch, skip: u64) -> Result<u64, NoMemory>
    ensures page { OnOk result ((offered : List NoticeItem) → Holds item_size page.old offered → Holds item_size page.new (offered ++ drop skip (items_in batch.now))) }
    ensures left { IfOk result (λ left. left ≡ skip - length batch.now.notices) }
{
    let notices = batch.notices.as_slice();
    let len = notices.len() as u64;
    if skip >= len {
        return Ok(skip - len);
    }
    let offset = offset_of(batch);
    let others = &notices[skip as usize..];
    add_notices(page, offset, others)?;
    Ok(0)
}

/// The page of the items of the batches from this one on, without the first ones that are skipped.
pub fn page_from(
    alloc: Global,
    batches: &VecDeque<NoticeBatch>,
    from: usize,
    skip: u64,
) -> Result<Page<NoticeItem>, NoMemory>
    ensures { IfOk result (λ page. Holds item_size page (drop skip (flat_map items_in (drop from batches.now.items)))) }
{
    let mut page = Page::empty(alloc);
    let mut left = skip;
    for at in from..batches.len() {
        if page.is_more() {
            return Ok(page);
        }
        let batch = &batches[at];
        left = add_batch(&mut page, batch, left)?;
    }
    Ok(page)
}
