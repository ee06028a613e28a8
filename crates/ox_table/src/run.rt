//! Runs of neighbouring pairs.
ghost use Rattle.std.specs.Prelude.{◌≡◌, ◌+◌, ◌-◌, ◌≤◌, ◌++◌, take, drop, length, IfOk, OnOk, OnErr, vec_len};

use ox_types::NoMemory;
use std::alloc::Global;

/// Takes the items from `start` up to `end` out. It takes room for them first, and costs one move of them and of the tail.
pub fn take_run<T: Drop>(items: &mut Vec<T>, start: usize, end: usize) -> Result<Vec<T>, NoMemory>
    requires ordered { start ≤ end }
    requires inside { end ≤ vec_len items.old }
    ensures taken { IfOk result (λ run. run.items ≡ take (end - start) (drop start items.old.items)) }
    ensures left { OnOk result (items.new.items ≡ take start items.old.items ++ drop end items.old.items) }
    ensures err { OnErr result (items.new.items ≡ items.old.items) }
{
    let alloc = *items.allocator();
    let mut run = Vec::with_capacity(alloc, end - start)?;
    for item in items.drain(start..end) {
        run.push_reserved(item);
    }
    Ok(run)
}
