//! Splits the first field off a text.
ghost use Rattle.std.specs.Prelude.{◌≡◌, ◌<◌, Option, Some, None, IfSome, length, option_map, option_copied};
ghost use Rattle.std.specs.List.{before_first, after_first, position_or_len};
ghost use Rattle.blot_tag.specs.Bytes.{is_soh, is_equals, EndsWithSoh};
ghost use Rattle.blot_tag.specs.Fields.{no_tag, wrong_length, data_tag_of, length_before, first_tag, data_value, first_field};
ghost use Rattle.blot_tag.specs.Views.{tag_value, split_of};

use crate::bytes::{CHECK_SUM_LENGTH, SOH, place_near};
use crate::digits::{is_number, number_of, tag_number};
use crate::field::{Field, SplitFault, SplitReason};
use crate::lanes::place_of_soh;

// The field doesn't begin with a tag and `=`.
const NO_TAG: SplitFault = SplitFault {
    tag: 0,
    reason: SplitReason::InvalidTagNumber,
};

// The length before a data field doesn't fit it.
fn wrong_length(tag: u32) -> SplitFault
    ensures { result ≡ wrong_length tag }
{
    SplitFault {
        tag,
        reason: SplitReason::IncorrectDataFormat,
    }
}

/// The tag of the data that goes with a length tag. Most fields of a report have a tag below every length tag. FIX 4.4 volume 6.
pub(crate) fn data_tag(length_tag: u32) -> Option<u32>
    ensures { result ≡ data_tag_of length_tag }
{
    if length_tag < 90 {
        return None;
    }
    match length_tag {
        90 => Some(91),
        93 => Some(89),
        95 => Some(96),
        212 => Some(213),
        348 => Some(349),
        350 => Some(351),
        352 => Some(353),
        354 => Some(355),
        356 => Some(357),
        358 => Some(359),
        360 => Some(361),
        362 => Some(363),
        364 => Some(365),
        445 => Some(446),
        618 => Some(619),
        621 => Some(622),
        _ => None,
    }
}

// The length of a data field, as the field right before it writes it; none for an ordinary field.
#[inline(always)]
fn length_before<'a>(before: Option<Field<'a>>, tag: u32) -> Option<&'a [u8]>
    ensures { option_copied result ≡ length_before (option_map tag_value before.entry) tag }
{
    let field = before?;
    if data_tag(field.tag) == Some(tag) {
        Some(field.value)
    } else {
        None
    }
}

// The tag that begins a text, and the text after its `=`, however many digits it has.
#[tactic(auto, unfolding(crate::specs::Bytes::tag_number))]
fn split_any_tag(text: &[u8]) -> Option<(u32, &[u8])>
    ensures tag { option_map (λ split. split.0) result ≡ first_tag text.now }
    ensures rest { IfSome result (λ split. split.1.now ≡ after_first is_equals text.now) }
{
    let place = place_near(b'=', text);
    if place == text.len() {
        return None;
    }
    let tag = tag_number(&text[..place])?;
    Some((tag, &text[place + 1..]))
}

// The tag that begins a text, and the text after its `=`. One to three digits are read at once.
#[inline(always)]
#[tactic(auto, using(crate::proofs::TagLemmas::tag_of_one, crate::proofs::TagLemmas::tag_of_two, crate::proofs::TagLemmas::tag_of_three))]
fn split_tag(text: &[u8]) -> Option<(u32, &[u8])>
    ensures tag { option_map (λ split. split.0) result ≡ first_tag text.now }
    ensures rest { IfSome result (λ split. split.1.now ≡ after_first is_equals text.now) }
{
    if let [a @ b'1'..=b'9', b @ b'0'..=b'9', b'=', rest @ ..] = text {
        return Some((u32::from(*a - b'0') * 10 + u32::from(*b - b'0'), rest));
    }
    if let [
        a @ b'1'..=b'9',
        b @ b'0'..=b'9',
        c @ b'0'..=b'9',
        b'=',
        rest @ ..,
    ] = text
    {
        let tens = u32::from(*a - b'0') * 10 + u32::from(*b - b'0');
        return Some((tens * 10 + u32::from(*c - b'0'), rest));
    }
    if let [a @ b'1'..=b'9', b'=', rest @ ..] = text {
        return Some((u32::from(*a - b'0'), rest));
    }
    split_any_tag(text)
}

// The bytes up to the next SOH, which stands in the text, and those after it.
#[inline(always)]
fn split_at_soh(text: &[u8]) -> (&[u8], &[u8])
    requires { position_or_len is_soh text.now < length text.now }
    ensures before { result.0.now ≡ before_first is_soh text.now }
    ensures after { result.1.now ≡ after_first is_soh text.now }
{
    let place = place_of_soh(text);
    (&text[..place], &text[place + 1..])
}

// As many bytes as the digits say, and the text after the SOH that follows them.
#[tactic(auto, unfolding(crate::specs::Fields::data_value))]
fn split_data<'a>(digits: &[u8], text: &'a [u8]) -> Option<(&'a [u8], &'a [u8])>
    ensures { option_map (λ split. (split.0.now, split.1.now)) result ≡ data_value digits.now text.now }
{
    if !is_number(digits) {
        return None;
    }
    let size = number_of(digits);
    if size < text.len().saturating_sub(CHECK_SUM_LENGTH) && text[size] == SOH {
        Some((&text[..size], &text[size + 1..]))
    } else {
        None
    }
}

/// The field that begins a text, right after the field `before`, and the text after it.
#[inline(always)]
#[tactic(auto, unfolding(crate::specs::Fields::first_field))]
pub(crate) fn first_field<'a>(
    before: Option<Field<'a>>,
    text: &'a [u8],
) -> Result<(Field<'a>, &'a [u8]), SplitFault>
    requires { EndsWithSoh text.now }
    ensures { split_of result ≡ first_field (option_map tag_value before.entry) text.now }
{
    let Some((tag, text)) = split_tag(text) else {
        return Err(NO_TAG);
    };
    let (value, rest) = match length_before(before, tag) {
        None => split_at_soh(text),
        Some(digits) => split_data(digits, text).ok_or(wrong_length(tag))?,
    };
    Ok((Field { tag, value }, rest))
}
