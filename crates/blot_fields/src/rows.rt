//! The rows of the tables: the value of the only field with a tag, read by a form.
ghost use Rattle.std.specs.Prelude.{◌≡◌, ◌<◌, ◌≤◌, ◌^◌, IfOk};
ghost use Rattle.blot_fields.specs.Index.{HasRow};
ghost use Rattle.blot_fields.specs.Forms.{number_form, zero_form, positive_form};
ghost use Rattle.blot_fields.specs.Rows.{at, has, there, needed, optional};
ghost use Rattle.blot_fields.specs.Occurrences.{lent_value};

use crate::fault::{Flaw, Wrong};
use crate::forms::{Form, number_form, positive_form, zero_form};
use crate::index::FieldIndex;
use crate::occurrence::Occurrence;
use blot_decimal::Qty;

/// What is found at a tag, with the tag beside its fault.
#[inline(always)]
pub(crate) fn at<T>(tag: u32, found: Result<T, Flaw>) -> Result<T, Wrong>
    ensures { result ≡ at tag found }
{
    match found {
        Ok(value) => Ok(value),
        Err(reason) => Err(Wrong::new(tag, reason)),
    }
}

/// Whether there is a field with a tag, once or more often.
#[inline(always)]
#[tactic(auto, unfolding(crate::specs::Rows::has))]
pub(crate) fn has(fields: &FieldIndex, tag: u32) -> bool
    requires { HasRow tag }
    ensures { result ≡ has tag fields.now }
{
    !matches!(fields.occurrence(tag), Occurrence::Missing)
}

/// The value of a field that must be there.
#[inline(always)]
#[tactic(auto, unfolding(crate::specs::Rows::there))]
pub(crate) fn there<'a>(fields: &FieldIndex<'a, '_>, tag: u32) -> Result<&'a [u8], Wrong>
    requires { HasRow tag }
    ensures { lent_value result ≡ there tag fields.now }
{
    match fields.occurrence(tag) {
        Occurrence::Missing => Err(Wrong::new(tag, Flaw::RequiredTagMissing)),
        Occurrence::Once(value) => Ok(value),
        Occurrence::Repeated => Err(Wrong::new(tag, Flaw::TagRepeated)),
    }
}

/// What a field says that must be there, by the form of its type.
#[inline(always)]
#[tactic(auto, unfolding(crate::specs::Rows::needed))]
pub(crate) fn needed<'a, T: Form<'a>>(fields: &FieldIndex<'a, '_>, tag: u32) -> Result<T, Wrong>
    requires { HasRow tag }
    ensures { result ≡ needed tag T.form fields.now }
{
    at(tag, T::from_value(there(fields, tag)?))
}

/// What a field says that may be missing, by the form of its type.
#[inline(always)]
#[tactic(auto, unfolding(crate::specs::Rows::optional))]
pub(crate) fn optional<'a, T: Form<'a>>(
    fields: &FieldIndex<'a, '_>,
    tag: u32,
) -> Result<Option<T>, Wrong>
    requires { HasRow tag }
    ensures { result ≡ optional tag T.form fields.now }
{
    match fields.occurrence(tag) {
        Occurrence::Missing => Ok(None),
        Occurrence::Once(value) => Ok(Some(at(tag, T::from_value(value))?)),
        Occurrence::Repeated => Err(Wrong::new(tag, Flaw::TagRepeated)),
    }
}

/// A whole number from `low` to `high`.
#[tactic(auto, unfolding(crate::specs::Rows::needed))]
pub(crate) fn number(fields: &FieldIndex, tag: u32, low: u64, high: u64) -> Result<u64, Wrong>
    requires tag { HasRow tag }
    requires small { high < 2 ^ 31 }
    ensures value { result ≡ needed tag (number_form low high) fields.now }
    ensures range { IfOk result (λ number. number ≤ high) }
{
    match number_form(there(fields, tag)?, low, high) {
        Ok(number) => Ok(number),
        Err(reason) => Err(Wrong::new(tag, reason)),
    }
}

/// `0` alone.
#[tactic(auto, unfolding(crate::specs::Rows::needed))]
pub(crate) fn zero(fields: &FieldIndex, tag: u32) -> Result<u64, Wrong>
    requires { HasRow tag }
    ensures { result ≡ needed tag zero_form fields.now }
{
    at(tag, zero_form(there(fields, tag)?))
}

/// A quantity above 0.
#[tactic(auto, unfolding(crate::specs::Rows::needed))]
pub(crate) fn positive(fields: &FieldIndex, tag: u32) -> Result<Qty, Wrong>
    requires { HasRow tag }
    ensures { result ≡ needed tag positive_form fields.now }
{
    at(tag, positive_form(there(fields, tag)?))
}
