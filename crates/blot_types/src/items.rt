//! The list within a command or a message.
ghost use Rattle.std.specs.Prelude.{◌≡◌, ◌≤◌, length, IfOk};
ghost use Rattle.std.specs.Cmp.{on_equiv, on_per};
ghost use Rattle.std.specs.Cmp.Lexicographic.{pointwise, lists_equiv, lists_per};

use crate::ITEMS_MAX;
use std::alloc::{AllocError as NoMemory, Global};
use std::marker::Model;

/// The items of a list that a command or a message holds, in their order. A contract sees it as that list.
#[derive(Debug, Drop)]
pub struct Items<T> {
    items: Vec<T>,
}

impl<T> Model for Items<T> {
    ghost use Rattle.std.specs.Prelude.{◌≤◌, List, length};
    ghost use Rattle.blot_types.specs.declared.TheConstants.{ITEMS_MAX};

    ghost Value = { List T };

    ghost view = { λ items. items.items.items };

    ghost invariant = { λ items. length items.items.items ≤ ITEMS_MAX };
}

impl<T> Items<T> {
    /// The items of a vector of at most `ITEMS_MAX`. No memory is taken.
    pub fn new(items: Vec<T>) -> Items<T>
        requires { length items.items ≤ ITEMS_MAX }
        ensures { result ≡ items.items }
    {
        Items { items }
    }

    /// The items, from the first to the last.
    pub fn as_slice(&self) -> &[T]
        ensures items { result.now ≡ self.now }
        ensures few { length self.now ≤ ITEMS_MAX }
    {
        self.items.as_slice()
    }
}

impl<T: Copy> Items<T> {
    /// Equal items. An error is out of memory.
    pub fn try_copy(&self, alloc: Global) -> Result<Items<T>, NoMemory>
        ensures { IfOk result (λ copy. copy ≡ self.now) }
    {
        let items = Vec::from_slice(alloc, self.as_slice())?;
        Ok(Items { items })
    }
}

impl<T: PartialEq> PartialEq for Items<T> {
    ghost eq = { pointwise T.eq };

    ghost laws = { lists_per T.laws };

    fn eq(&self, other: &Items<T>) -> bool {
        self.as_slice() == other.as_slice()
    }
}

impl<T: Eq> Eq for Items<T> {
    ghost laws = { lists_equiv T.Eq.laws };
}
