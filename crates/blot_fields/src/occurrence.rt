//! What is known of one tag.
ghost use Rattle.std.specs.Prelude.{◌≡◌};
ghost use Rattle.blot_fields.specs.Occurrences.{found_in, with_value, lone_value};

use crate::fault::Flaw;

/// How often fields with a tag were met, and the value of a lone one.
#[derive(Clone, Copy)]
pub(crate) enum Occurrence<'a> {
    Missing,
    Once(&'a [u8]),
    Repeated,
}

impl<'a> Occurrence<'a> {
    /// One field more.
    pub(crate) fn with(self, value: &'a [u8]) -> Occurrence<'a>
        ensures { found_in result ≡ with_value (found_in self.entry) value.now }
    {
        match self {
            Occurrence::Missing => Occurrence::Once(value),
            Occurrence::Once(_) | Occurrence::Repeated => Occurrence::Repeated,
        }
    }

    /// The value of the lone field, none without one.
    pub(crate) fn lone(self) -> Result<Option<&'a [u8]>, Flaw>
        ensures { lone_value result ≡ found_in self.entry }
    {
        match self {
            Occurrence::Missing => Ok(None),
            Occurrence::Once(value) => Ok(Some(value)),
            Occurrence::Repeated => Err(Flaw::TagRepeated),
        }
    }
}
