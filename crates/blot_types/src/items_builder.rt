//! Lists in the making.
ghost use Rattle.std.specs.Prelude.{◌≡◌, [], true, false, IfOk, IfErr};
ghost use Rattle.blot_types.specs.ItemsBuilder.{Grows, IsShort};

use crate::Items;
use std::alloc::{AllocError as NoMemory, Global};
use std::marker::Model;

/// A list in the making, where each fault of its items comes before out of memory: that memory ran out is told at its
/// end. A contract sees its items, and whether there was memory for each.
#[derive(Drop)]
pub struct ItemsBuilder<T> {
    items: Vec<T>,
    complete: bool,
}

impl<T> Model for ItemsBuilder<T> {
    ghost use Rattle.blot_types.specs.ItemsBuilder.{Made};

    ghost Value = { Made T };

    ghost view = { λ making. record { items = making.items.items; complete = making.complete } };
}

impl<T: Drop> ItemsBuilder<T> {
    /// An empty list. No memory is taken.
    pub fn new(alloc: Global) -> ItemsBuilder<T>
        ensures items { result.items ≡ [] }
        ensures complete { result.complete ≡ true }
    {
        ItemsBuilder {
            items: Vec::new(alloc),
            complete: true,
        }
    }

    /// Puts an item at the end, if there was memory for each so far.
    pub fn push(&mut self, item: T)
        ensures { Grows item self.old self.new }
    {
        if self.complete && self.items.push(item).is_err() {
            self.complete = false;
        }
    }

    /// The list, of at most `ITEMS_MAX` items. An error is out of memory for an item.
    pub fn finish(self) -> Result<Items<T>, NoMemory>
        requires { IsShort self }
        ensures complete { IfOk result (λ _. self.complete ≡ true) }
        ensures items { IfOk result (λ items. items ≡ self.items) }
        ensures short_of_memory { IfErr result (λ _. self.complete ≡ false) }
    {
        if self.complete {
            Ok(Items::new(self.items))
        } else {
            Err(NoMemory)
        }
    }
}
