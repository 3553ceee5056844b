//! A value that proofs alone read.
ghost use Rattle.std.specs.Prelude.{◌≡◌};
ghost use Rattle.std.specs.Borrow.{ftrue};

use std::marker::{Model, PhantomData};

/// A value that is remembered after it went elsewhere. It takes no memory, and does nothing when the program runs: proofs alone
/// read it, as `value`.
#[derive(Drop)]
pub struct GhostValue<T> {
    of: PhantomData<T>,
    pub ghost value: { T },
}

impl<T> Model for GhostValue<T> {
    ghost also_owns = { λ _. ftrue };
}

// It owns nothing, and nothing of it can be reached: so it goes to another thread, and is shared with one.
unsafe impl<T: Send> Send for GhostValue<T> {}

unsafe impl<T: Send + Sync> Sync for GhostValue<T> {}

impl<T> GhostValue<T> {
    /// Remembers a value.
    pub fn of(value: &T) -> GhostValue<T>
        ensures { result.value ≡ value.now }
    {
        GhostValue { of: PhantomData }
    }
}
