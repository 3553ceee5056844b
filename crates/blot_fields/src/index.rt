//! The fields of a message, by their tags.
ghost use Rattle.std.specs.Prelude.{◌≡◌, ◌≤◌, length};
ghost use Rattle.blot_tag.specs.Fields.{fields_of};
ghost use Rattle.blot_tag.specs.Views.{items_of, tag_value, text_of};
ghost use Rattle.blot_fields.specs.declared.sound.TheConstants.{FIELDS_MAX};
ghost use Rattle.blot_fields.specs.Rows.{only};
ghost use Rattle.blot_fields.specs.Occurrences.{found_in};
ghost use Rattle.blot_fields.specs.Index.{HasRow, IsIndex, KnowsNothing, Notes, row_of};
ghost use Rattle.blot_fields.specs.Walk.{sound_fields, refused_field};

use crate::fault::Wrong;
use crate::occurrence::Occurrence;
use crate::sound::{SoundFields, field_wrong};
use blot_tag::{Field, Frame};
use std::marker::Model;

/// How many tags have a row in some table.
pub(crate) const ROWS: usize = 36;

// More than the tags that have a row: each of them is below it.
const TAGS: usize = 152;

// The place of each of these tags among those that have a row, and their number where it has none.
static ROW_OF_TAG: [u8; TAGS] = [
    36, 0, 36, 36, 36, 36, 1, 2, 36, 36, 36, 36, 36, 36, 3, 36, 4, 5, 36, 6, 36, 36, 36, 36, 36,
    36, 36, 36, 36, 36, 36, 7, 8, 36, 9, 10, 11, 12, 13, 14, 36, 36, 36, 15, 36, 36, 36, 36, 36,
    16, 36, 36, 17, 18, 19, 20, 21, 36, 36, 36, 22, 36, 36, 36, 36, 36, 36, 36, 36, 36, 23, 24, 25,
    36, 36, 26, 36, 36, 27, 36, 36, 36, 36, 36, 36, 36, 36, 36, 36, 36, 36, 36, 36, 36, 36, 36, 36,
    36, 28, 36, 36, 36, 36, 36, 36, 36, 36, 36, 29, 36, 36, 36, 30, 36, 36, 36, 36, 36, 36, 36, 36,
    36, 36, 31, 32, 36, 36, 36, 36, 36, 36, 36, 36, 36, 36, 36, 36, 36, 36, 36, 36, 33, 36, 36, 36,
    36, 36, 36, 36, 36, 34, 35,
];

/// The fields of a frame, up to the first that is refused. A contract sees it as their list.
#[derive(Drop)]
pub(crate) struct FieldIndex<'a, 's> {
    frame: &'s Frame<'a>,
    occurrences: &'s [Occurrence<'a>; ROWS],
}

impl<'a, 's> Model for FieldIndex<'a, 's> {
    ghost use Rattle.std.specs.Prelude.{List};
    ghost use Rattle.blot_tag.specs.Fields.{TagValue, fields_of};
    ghost use Rattle.blot_tag.specs.Views.{text_of};
    ghost use Rattle.blot_fields.specs.Index.{IsIndex};
    ghost use Rattle.blot_fields.specs.Walk.{sound_fields};

    ghost Value = { List TagValue };

    ghost view = { λ index. sound_fields (fields_of (text_of index.frame.now)) };

    ghost invariant = { λ index.
        IsIndex (sound_fields (fields_of (text_of index.frame.now))) index.occurrences.now };
}

// The place of a tag among those that have a row, and their number where it has none.
#[inline(always)]
fn row_of(tag: u32) -> usize
    ensures { result ≡ row_of tag }
{
    let tag = tag as usize;
    if tag < TAGS {
        usize::from(ROW_OF_TAG[tag])
    } else {
        ROWS
    }
}

impl<'a, 's> FieldIndex<'a, 's> {
    /// The fields of a frame, over what is known of each tag.
    pub(crate) fn new(
        frame: &'s Frame<'a>,
        occurrences: &'s [Occurrence<'a>; ROWS],
    ) -> FieldIndex<'a, 's>
        requires { IsIndex (sound_fields (items_of frame.now)) occurrences.now }
        ensures { result ≡ sound_fields (items_of frame.now) }
    {
        FieldIndex { frame, occurrences }
    }

    /// The fields from left to right.
    pub(crate) fn walk(&self) -> SoundFields<'a>
        ensures value { result ≡ self.now }
        ensures few { length result ≤ FIELDS_MAX }
    {
        SoundFields::of(self.frame)
    }

    /// What is known of a tag that has a row.
    #[inline(always)]
    #[tactic(auto, unfolding(crate::specs::Rows::only))]
    pub(crate) fn occurrence(&self, tag: u32) -> Occurrence<'a>
        requires { HasRow tag }
        ensures { found_in result ≡ only tag self.now }
    {
        self.occurrences[row_of(tag)]
    }
}

/// What is known of each tag before any field is noted.
pub(crate) fn no_occurrences<'a>() -> [Occurrence<'a>; ROWS]
    ensures { KnowsNothing result }
{
    [Occurrence::Missing; ROWS]
}

/// Notes the fields of a frame up to the first that is refused, and gives its fault.
pub(crate) fn note_fields<'a>(
    occurrences: &mut [Occurrence<'a>; ROWS],
    frame: &Frame<'a>,
) -> Option<Wrong>
    requires { KnowsNothing occurrences.old }
    ensures known { IsIndex (sound_fields (items_of frame.now)) occurrences.new }
    ensures refused { result ≡ refused_field (items_of frame.now) }
{
    let mut before = 0;
    for item in frame.fields() {
        let field = match item {
            Ok(field) => field,
            Err(fault) => return Some(Wrong::split(fault)),
        };
        if let Some(wrong) = field_wrong(before, field) {
            return Some(wrong);
        }
        note(occurrences, field);
        before += 1;
    }
    None
}

// Notes a field at the row of its tag, if that has one.
fn note<'a>(occurrences: &mut [Occurrence<'a>; ROWS], field: Field<'a>)
    ensures { Notes (tag_value field.entry) occurrences.old occurrences.new }
{
    let row = row_of(field.tag);
    if row < ROWS {
        match occurrences[row] {
            Occurrence::Missing => occurrences[row] = Occurrence::Once(field.value),
            Occurrence::Once(_) | Occurrence::Repeated => occurrences[row] = Occurrence::Repeated,
        }
    }
}
