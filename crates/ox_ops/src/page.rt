ghost use Rattle.std.specs.Prelude.{◌≡◌, ◌-◌, ◌++◌, ◌∷◌, [], true, false, OnOk, OnErr, if◌then◌else◌};
ghost use Rattle.ox_ops.specs.Page.{page_bytes};
ghost use Rattle.ox_ops.specs.Filling.{has_room};

use ox_types::{List, NoMemory, PAGE_BYTES, PAGE_ITEMS};
use std::alloc::Global;
use std::marker::Model;

/// A page that is filled item by item (docs/STORE.md). Each item is offered by its size, and pushed where there is room;
/// behind the first one that is left out there is room for none.
#[derive(Debug, Drop)]
pub struct Page<T> {
    items: List<T>,
    room: u64,
    more: bool,
}

impl<T> Model for Page<T> {
    ghost use Rattle.std.specs.Prelude.{List, ℕ, Bool};
    ghost use Rattle.ox_ops.specs.Filling.{Filling};

    ghost Value = { Filling T };

    ghost view = { λ p. record { items = p.items; room = p.room; more = p.more } };
}

impl<T> Page<T> {
    pub fn empty(alloc: Global) -> Page<T>
        ensures { result ≡ record { items = []; room = page_bytes; more = false } }
    {
        Page {
            items: List::new(alloc),
            room: PAGE_BYTES,
            more: false,
        }
    }

    /// Whether there is room for one more item of so many bytes. Where there isn't, an item was left out.
    pub fn offer(&mut self, size: u64) -> bool
        ensures answer { result ≡ has_room self.old size }
        ensures after { self.new ≡ (if has_room self.old size then record self.old { room = self.old.room - size } else record self.old { more = true }) }
    {
        if self.more || self.items.len() >= PAGE_ITEMS || size > self.room {
            self.more = true;
            return false;
        }
        self.room -= size;
        true
    }

    /// Whether an item was left out.
    pub fn is_more(&self) -> bool
        ensures { result ≡ self.now.more }
    {
        self.more
    }

    /// The items, and whether one was left out.
    pub fn finish(self) -> (List<T>, bool)
        ensures items { result.0 ≡ self.items }
        ensures more { result.1 ≡ self.more }
    {
        let Page {
            items,
            room: _,
            more,
        } = self;
        (items, more)
    }
}

impl<T: Drop> Page<T> {
    /// Adds an item for which there was room. Where memory runs out, the item is dropped.
    pub fn push(&mut self, item: T) -> Result<(), NoMemory>
        ensures ok { OnOk result (self.new ≡ record self.old { items = self.old.items ++ item ∷ [] }) }
        ensures err { OnErr result (self.new ≡ self.old) }
    {
        self.items.push(item)
    }
}
