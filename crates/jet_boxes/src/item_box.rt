// Boxes: bounded lists, first in first out. The memory of a box is taken when it is made, so that no offer wants
// memory, and a full box is an answer that gives the item back.
ghost use Rattle.std.specs.Prelude.{◌≡◌, ◌+◌, ◌<◌, ◌≤◌, ◌↔◌, [], ◌∷◌, ◌++◌, length, drop, slice_get, IsTrue, IsFalse, IsNone, IfOk, OnOk, OnErr, IfErr, IfSome, IfNone};
ghost use Rattle.std.specs.Option.{option_copied};

use jet_items::{Item, NoMemory};
use std::alloc::Global;
use std::collections::VecDeque;
use std::marker::Model;

/// The items that a processor has still to take.
pub type Inbox = ItemBox;

/// The items that a processor gave and no ring has taken yet.
pub type Outbox = ItemBox;

/// At most `room` items, in the order in which they were put.
#[derive(Drop)]
pub struct ItemBox {
    room: u32,
    items: VecDeque<Item>,
}

impl Model for ItemBox {
    ghost use Rattle.std.specs.Prelude.{◌≤◌, length};
    ghost use Rattle.std.specs.VecDeque.{deque_capacity};
    ghost use Rattle.jet_boxes.specs.Held.{BoxView};

    ghost Value = { BoxView };

    ghost view = { λ b. record { room = b.room; items = b.items.items } };

    ghost invariant = { λ b. (length b.items.items ≤ b.room) × (b.room ≤ deque_capacity b.items) };
}

impl ItemBox {
    /// An empty box for `room` items, one at least: a box without room would refuse every item.
    pub fn new(alloc: Global, room: u32) -> Result<ItemBox, NoMemory>
        requires { 1 ≤ room }
        ensures { IfOk result (λ b. b ≡ record { room = room; items = [] }) }
    {
        let items = VecDeque::with_capacity(alloc, room as usize)?;
        Ok(ItemBox { room, items })
    }

    /// Puts the item last, or gives it back where the box is full.
    pub fn offer(&mut self, item: Item) -> Result<(), Item>
        ensures put { OnOk result (self.new ≡ record self.old { items = self.old.items ++ item ∷ [] }) }
        ensures fits { OnOk result (length self.old.items < self.old.room) }
        ensures back { IfErr result (λ x. x ≡ item) }
        ensures kept { OnErr result (self.new ≡ self.old) }
        ensures full { OnErr result (length self.old.items ≡ self.old.room) }
    {
        if self.items.len() >= self.room as usize {
            return Err(item);
        }
        self.items.push_back(item).map_err(|failed| failed.value)
    }

    /// Puts a copy of the item last, and answers whether there was room.
    pub fn put(&mut self, item: &Item) -> bool
        ensures put { IsTrue result → self.new ≡ record self.old { items = self.old.items ++ item.now ∷ [] } }
        ensures fits { IsTrue result → length self.old.items < self.old.room }
        ensures kept { IsFalse result → self.new ≡ self.old }
        ensures full { IsFalse result → length self.old.items ≡ self.old.room }
    {
        let fits = self.free() > 0;
        if fits {
            self.items.push_back_reserved(*item);
        }
        fits
    }

    /// The first item.
    pub fn front(&self) -> Option<&Item>
        ensures { option_copied result ≡ slice_get self.now.items 0 }
    {
        self.items.front()
    }

    /// Takes the first item out.
    pub fn pop(&mut self) -> Option<Item>
        ensures empty { IsNone result ↔ (self.old.items ≡ []) }
        ensures taken { IfSome result (λ x. self.old ≡ record self.new { items = x ∷ self.new.items }) }
        ensures kept { IfNone result (self.new ≡ self.old) }
    {
        self.items.pop_front()
    }

    /// Drops the first item, if there is one, once it was looked at in its place.
    pub fn skip(&mut self)
        ensures { self.new ≡ record self.old { items = drop 1 self.old.items } }
    {
        let _ = self.items.pop_front();
    }

    /// How many more items fit.
    pub fn free(&self) -> u32
        ensures { result + length self.now.items ≡ self.now.room }
    {
        self.room - self.items.len() as u32
    }
}
