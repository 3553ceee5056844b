//! What is asked between two reads of a session that is served.
ghost use Rattle.std.specs.Prelude.{◌≡◌, false};

/// What is asked before each read of a session that is served whether the serving goes on.
pub trait Watch {
    /// That it may end the serving.
    ghost may_end: { Type 0 };

    /// Whether the serving goes on. The session expects this number next.
    fn goes_on(&self, expected: u64) -> bool
        ensures { result ≡ false → may_end };
}

/// What never ends the serving.
pub(crate) struct Unwatched;

impl Watch for Unwatched {
    ghost may_end = { ⊥ };

    fn goes_on(&self, _expected: u64) -> bool {
        true
    }
}
