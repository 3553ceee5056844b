//! The fields of a frame, one at a time.
ghost use Rattle.std.specs.Prelude.{◌≡◌, Option, Some, None};
ghost use Rattle.std.specs.Iterator.{YieldsFirstBy, item_count};
ghost use Rattle.blot_tag.specs.Bytes.{EndsWithSoh};
ghost use Rattle.blot_tag.specs.Fields.{fields_of};
ghost use Rattle.blot_tag.specs.Views.{item_of};

use crate::field::{Field, SplitFault};
use crate::split::first_field;
use std::marker::Model;

/// The fields of a frame, from left to right, the first three and the last included. It ends
/// after its first fault.
#[derive(Drop)]
pub struct Fields<'a> {
    before: Option<Field<'a>>,
    rest: &'a [u8],
}

impl<'a> Model for Fields<'a> {
    ghost use Rattle.std.specs.Prelude.{List, option_map};
    ghost use Rattle.blot_tag.specs.Fields.{Item, items_behind};
    ghost use Rattle.blot_tag.specs.Bytes.{EndsWithSoh};
    ghost use Rattle.blot_tag.specs.Views.{tag_value};

    ghost Value = { List Item };

    ghost view = { λ fields. items_behind (option_map tag_value fields.before) fields.rest.now };

    ghost invariant = { λ fields. EndsWithSoh fields.rest.now };
}

impl<'a> Fields<'a> {
    /// The fields of a whole text, which ends with SOH.
    pub(crate) fn of(text: &'a [u8]) -> Fields<'a>
        requires { EndsWithSoh text.now }
        ensures { result ≡ fields_of text.now }
    {
        Fields {
            before: None,
            rest: text,
        }
    }
}

impl<'a> Iterator for Fields<'a> {
    type Item = Result<Field<'a>, SplitFault>;

    ghost next_gives = { YieldsFirstBy item_of (λ items. items) };

    ghost remaining = { item_count (λ items. items) };

    #[inline(always)]
    fn next(&mut self) -> Option<Result<Field<'a>, SplitFault>> {
        if self.rest.is_empty() {
            return None;
        }
        match first_field(self.before, self.rest) {
            Ok((field, rest)) => {
                self.before = Some(field);
                self.rest = rest;
                Some(Ok(field))
            }
            Err(fault) => {
                self.rest = &[];
                Some(Err(fault))
            }
        }
    }
}
