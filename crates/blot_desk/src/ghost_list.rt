//! A list that proofs alone read.
ghost use Rattle.std.specs.Prelude.{◌≡◌, List, [], ◌∷◌, ◌++◌};
ghost use Rattle.std.specs.Borrow.{ftrue};
ghost use Rattle.std.specs.Coded.{coded_list};

use std::marker::{Model, PhantomData};

/// A list that is remembered and not kept. It takes no memory, and does nothing when the program runs: proofs alone read it, as `items`.
#[derive(Drop)]
pub(crate) struct GhostList<T> {
    of: PhantomData<T>,
    pub ghost items: { List T } by { coded_list T.code },
}

impl<T> Model for GhostList<T> {
    ghost also_owns = { λ _. ftrue };
}

impl<T> GhostList<T> {
    /// The empty list.
    pub(crate) fn new() -> GhostList<T>
        ensures { result.items ≡ [] }
    {
        GhostList { of: PhantomData }
    }

    /// The list with one more item at its end.
    pub(crate) fn followed_by(&self, item: &T) -> GhostList<T>
        ensures { result.items ≡ self.now.items ++ item.now ∷ [] }
    {
        GhostList { of: PhantomData }
    }
}
