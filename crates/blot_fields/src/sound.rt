//! The fields of a frame before the first that is refused.
ghost use Rattle.std.specs.Prelude.{◌≡◌, ◌<◌, ◌≤◌, length, IfSome, IfNone, option_map};
ghost use Rattle.std.specs.Iterator.{YieldsFirstBy, item_count};
ghost use Rattle.blot_tag.specs.Views.{item_of, items_of, tag_value};
ghost use Rattle.blot_fields.specs.Walk.{field_wrong, sound_field, sound_fields};

use crate::fault::{Flaw, Wrong};
use blot_tag::{Field, Fields, Frame, SplitFault};
use std::marker::Model;

// The most fields of a message. This project's rule.
const FIELDS_MAX: usize = 2000;

/// The fields of a frame, from left to right, up to the first that is refused.
#[derive(Drop)]
pub(crate) struct SoundFields<'a> {
    // How many fields it has given; the most of a message where it has ended.
    before: usize,
    items: Fields<'a>,
}

impl<'a> Model for SoundFields<'a> {
    ghost use Rattle.std.specs.Prelude.{List};
    ghost use Rattle.blot_tag.specs.Fields.{TagValue};
    ghost use Rattle.blot_fields.specs.Walk.{sound_behind};

    ghost Value = { List TagValue };

    ghost view = { λ fields. sound_behind fields.before fields.items };
}

impl<'a> SoundFields<'a> {
    /// The fields of a whole frame.
    pub(crate) fn of(frame: &Frame<'a>) -> SoundFields<'a>
        ensures value { result ≡ sound_fields (items_of frame.now) }
        ensures few { length result ≤ FIELDS_MAX }
    {
        SoundFields {
            before: 0,
            items: frame.fields(),
        }
    }
}

impl<'a> Iterator for SoundFields<'a> {
    type Item = Field<'a>;

    ghost next_gives = { YieldsFirstBy tag_value (λ fields. fields) };

    ghost remaining = { item_count (λ fields. fields) };

    fn next(&mut self) -> Option<Field<'a>> {
        let item = self.items.next()?;
        match sound_field(self.before, item) {
            Some(field) => {
                self.before += 1;
                Some(field)
            }
            None => {
                self.before = FIELDS_MAX;
                None
            }
        }
    }
}

// The field, unless it is refused.
fn sound_field<'a>(before: usize, item: Result<Field<'a>, SplitFault>) -> Option<Field<'a>>
    ensures field { option_map tag_value result ≡ sound_field before (item_of item.entry) }
    ensures few { IfSome result (λ _. before < FIELDS_MAX) }
{
    let field = item.ok()?;
    match field_wrong(before, field) {
        None => Some(field),
        Some(_) => None,
    }
}

/// Why a field is refused that stands after so many others.
#[tactic(auto, unfolding(crate::specs::Walk::field_wrong))]
pub(crate) fn field_wrong(before: usize, field: Field) -> Option<Wrong>
    ensures few { IfNone result (before < FIELDS_MAX) }
    ensures value { result ≡ field_wrong before (tag_value field.entry) }
{
    if before >= FIELDS_MAX {
        Some(Wrong::new(field.tag, Flaw::IncorrectDataFormat))
    } else if field.value.is_empty() {
        Some(Wrong::new(field.tag, Flaw::TagWithoutValue))
    } else {
        None
    }
}
