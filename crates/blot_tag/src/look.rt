//! What stands at a place of a text: a frame, a part of one, or neither.
ghost use Rattle.std.specs.Prelude.{◌≡◌, ℕ, ◌+◌, ◌-◌, ◌<◌, ◌≤◌, [], ◌∷◌, ◌++◌, length, take, drop, Ok, OnOk, IfOk};
ghost use Rattle.std.specs.Result.{result_map_both};
ghost use Rattle.blot_tag.specs.Bytes.{soh};
ghost use Rattle.blot_tag.specs.Frames.{head, check_sum, three_digits};
ghost use Rattle.blot_tag.specs.Looking.{behind, longer_size, whole_size, open_size, size_of, trailer_look, body_look, length_look, look_of};
ghost use Rattle.blot_tag.specs.Sums.{IsSummed};

use crate::bytes::{CHECK_SUM_LENGTH, SOH};
use crate::sums::{Summed, sum_of};

/// What begins a frame.
pub(crate) const HEAD: &[u8] = b"8=FIX.4.4\x019=";

// The shortest body: MsgType alone, with a value of one byte.
const SIZE_MIN: usize = 5;

/// The longest body. This project's rule.
pub(crate) const SIZE_MAX: usize = 65_536;

// The most digits of BodyLength. This project's rule.
const DIGITS_MAX: usize = 6;

/// Why a text doesn't begin with a frame.
#[derive(Clone, Copy)]
pub(crate) enum Miss {
    /// It is a proper prefix of one.
    Partial,
    /// No frame begins with it.
    Neither,
}

// The text after the bytes that are expected at its beginning.
fn behind<'a>(expected: &[u8], text: &'a [u8]) -> Result<&'a [u8], Miss>
    ensures { result_map_both (λ rest. rest.now) (λ miss. miss) result ≡ behind expected.now text.now }
{
    match text.strip_prefix(expected) {
        Some(rest) => Ok(rest),
        None if expected.starts_with(text) => Err(Miss::Partial),
        None => Err(Miss::Neither),
    }
}

// The number with one more digit, after `count` others.
#[tactic(auto, unfolding(crate::specs::Looking::longer_size))]
fn longer_size(count: usize, size: usize, byte: u8) -> Result<usize, Miss>
    requires { size ≤ SIZE_MAX }
    ensures value { result ≡ longer_size count size byte }
    ensures low { IfOk result (λ longer. longer ≤ SIZE_MAX) }
{
    if !byte.is_ascii_digit() || count >= DIGITS_MAX {
        return Err(Miss::Neither);
    }
    let longer = size * 10 + usize::from(byte - b'0');
    if longer <= SIZE_MAX {
        Ok(longer)
    } else {
        Err(Miss::Neither)
    }
}

// The number that all digits write, and how many they are.
#[tactic(auto, unfolding(crate::specs::Looking::whole_size))]
fn whole_size(count: usize, size: usize) -> Result<(usize, usize), Miss>
    ensures value { result ≡ whole_size count size }
    ensures low { IfOk result (λ whole. SIZE_MIN ≤ whole.0) }
    ensures count { IfOk result (λ whole. whole.1 ≡ count) }
{
    if size >= SIZE_MIN {
        Ok((size, count))
    } else {
        Err(Miss::Neither)
    }
}

// Why there is no number, where the text ends after `count` digits.
#[tactic(auto, unfolding(crate::specs::Looking::open_size))]
fn open_size(count: usize, size: usize) -> Miss
    ensures { result ≡ open_size count size }
{
    if count < DIGITS_MAX || size >= SIZE_MIN {
        Miss::Partial
    } else {
        Miss::Neither
    }
}

// The number that BodyLength's digits write, and how many they are.
fn size_of(rest: &[u8]) -> Result<(usize, usize), Miss>
    ensures value { result ≡ size_of 0 0 rest.now }
    ensures low { IfOk result (λ size. SIZE_MIN ≤ size.0) }
    ensures within { IfOk result (λ size. size.1 < length rest.now) }
{
    let mut size = 0;
    for (count, byte) in rest.iter().enumerate() {
        if *byte == SOH {
            return whole_size(count, size);
        }
        size = longer_size(count, size, *byte)?;
    }
    Err(open_size(rest.len(), size))
}

/// What stands after `10=` in a frame: three digits and SOH.
pub(crate) fn check_sum(front: &[u8]) -> [u8; 4]
    ensures { result ≡ check_sum front.now }
{
    sum_text(sum_of(front))
}

// The three digits of a sum, and SOH.
fn sum_text(sum: u8) -> [u8; 4]
    ensures { result ≡ three_digits sum ++ soh ∷ [] }
{
    [b'0' + sum / 100, b'0' + sum / 10 % 10, b'0' + sum % 10, SOH]
}

// The length of the frame that begins at `place`, and whose CheckSum stands at `end`.
#[tactic(auto, unfolding(crate::specs::Looking::trailer_look))]
fn trailer_look(text: &[u8], place: usize, end: usize, known: &mut Summed) -> Result<usize, Miss>
    requires order { place ≤ end }
    requires inside { end ≤ length text.now }
    requires known { IsSummed text.now known.old }
    ensures value { result ≡ trailer_look (take (end - place) (drop place text.now)) (drop end text.now) }
    ensures known { IsSummed text.now known.new }
{
    let digits = behind(b"10=", &text[end..])?;
    *known = known.moved(text, place, end);
    behind(&sum_text(known.sum), digits)?;
    Ok(end - place + CHECK_SUM_LENGTH)
}

// The length of the frame that begins at `place`, and whose body begins at `start` and has this size.
#[tactic(auto, unfolding(crate::specs::Looking::body_look))]
fn body_look(
    text: &[u8],
    place: usize,
    start: usize,
    size: usize,
    known: &mut Summed,
) -> Result<usize, Miss>
    requires order { place ≤ start }
    requires inside { start ≤ length text.now }
    requires low { SIZE_MIN ≤ size }
    requires known { IsSummed text.now known.old }
    ensures value { result ≡ body_look (take (start - place) (drop place text.now)) size (drop start text.now) }
    ensures known { IsSummed text.now known.new }
{
    let rest = &text[start..];
    behind(b"35=", rest)?;
    if rest.len() < size {
        return Err(Miss::Partial);
    }
    if rest[size - 1] != SOH {
        return Err(Miss::Neither);
    }
    trailer_look(text, place, start + size, known)
}

/// The length of the frame that begins at a place. The stretch that was summed last is kept for the next place.
#[tactic(auto, unfolding(crate::specs::Looking::look_of, crate::specs::Looking::length_look))]
pub(crate) fn look(text: &[u8], place: usize, known: &mut Summed) -> Result<usize, Miss>
    requires inside { place ≤ length text.now }
    requires known { IsSummed text.now known.old }
    ensures value { result ≡ look_of (drop place text.now) }
    ensures known { IsSummed text.now known.new }
{
    let rest = behind(HEAD, &text[place..])?;
    let (size, digits) = size_of(rest)?;
    let start = place + HEAD.len() + digits + 1;
    body_look(text, place, start, size, known)
}
