//! Reads the size of a number from an unsigned text.
ghost use Rattle.std.specs.Prelude.{◌≡◌, ◌*◌, ◌^◌, ◌≤◌, ◌++◌, length, min, fold, IsTrue};
ghost use Rattle.std.specs.List.{position_or_len};
ghost use Rattle.blot_decimal.specs.Text.{is_negative, unsigned_of, is_point, whole_of, fraction_of, are_digits, are_zeros, are_parts, with_digit, number_of};
ghost use Rattle.blot_decimal.specs.Meaning.{kept_of, size_of, limited};

use crate::fault::DecimalFault;

/// Quantities and prices are smaller than this many units.
pub(crate) const SIZE_LIMIT: u64 = 10_000_000_000_000_000;

// The most decimals of a quantity or a price.
const PLACES_MAX: usize = 8;

// What the zeros that a text leaves out are worth.
const POWERS: [u64; PLACES_MAX + 1] = [
    1, 10, 100, 1000, 10000, 100000, 1000000, 10000000, 100000000,
];

/// Splits a minus sign off: whether there is one, and the rest.
pub(crate) fn split_sign(text: &[u8]) -> (bool, &[u8])
    ensures negative { result.0 ≡ is_negative text.now }
    ensures rest { result.1.now ≡ unsigned_of text.now }
{
    match text {
        [b'-', size @ ..] => (true, size),
        _ => (false, text),
    }
}

// Where the point stands, or the length of the text where there is none.
fn point_at(size: &[u8]) -> usize
    ensures place { result ≡ position_or_len is_point size.now }
    ensures within { result ≤ length size.now }
{
    size.iter().take_while(|byte| **byte != b'.').count()
}

// The parts of an unsigned text before and after its point.
fn split_point(size: &[u8]) -> (&[u8], &[u8])
    ensures whole { result.0.now ≡ whole_of size.now }
    ensures fraction { result.1.now ≡ fraction_of size.now }
{
    let (whole, rest) = size.split_at(point_at(size));
    match rest {
        [_, fraction @ ..] => (whole, fraction),
        [] => (whole, rest),
    }
}

// Whether every byte is a digit.
fn are_digits(bytes: &[u8]) -> bool
    ensures { result ≡ are_digits bytes.now }
{
    bytes.iter().all(|byte| byte.is_ascii_digit())
}

// Whether every byte is a zero.
fn are_zeros(bytes: &[u8]) -> bool
    ensures { result ≡ are_zeros bytes.now }
{
    bytes.iter().all(|byte| *byte == b'0')
}

// Whether both parts are digits, with at least one digit in them.
#[tactic(auto, unfolding(crate::specs::Text::are_parts))]
fn are_parts(whole: &[u8], fraction: &[u8]) -> bool
    ensures { result ≡ are_parts whole.now fraction.now }
{
    are_digits(whole) && are_digits(fraction) && whole.len() + fraction.len() > 0
}

// The number with more digits after it, or `SIZE_LIMIT` where it is that or more.
fn with_digits(number: u64, digits: &[u8]) -> u64
    requires low { number ≤ SIZE_LIMIT }
    requires digits { IsTrue (are_digits digits.now) }
    ensures { result ≡ min (fold with_digit number digits.now) (SIZE_LIMIT) }
{
    let mut value = number;
    for digit in digits {
        value = (value * 10 + u64::from(digit - b'0')).min(SIZE_LIMIT);
    }
    value
}

// The number with more zeros after it, or `SIZE_LIMIT` where it is that or more.
fn with_zeros(number: u64, zeros: usize) -> u64
    requires { zeros ≤ PLACES_MAX }
    ensures { result ≡ min (number * 10 ^ zeros) (SIZE_LIMIT) }
{
    number.saturating_mul(POWERS[zeros]).min(SIZE_LIMIT)
}

// The units of 10^-places that digits before and after a point write, or `SIZE_LIMIT` where they
// are that or more.
fn units_of(whole: &[u8], kept: &[u8], places: usize) -> u64
    requires whole_digits { IsTrue (are_digits whole.now) }
    requires kept_digits { IsTrue (are_digits kept.now) }
    requires kept_fits { length kept.now ≤ places }
    requires places { places ≤ PLACES_MAX }
    ensures { result ≡ min (number_of (whole.now ++ kept_of places kept.now)) (SIZE_LIMIT) }
{
    let units = with_digits(with_digits(0, whole), kept);
    with_zeros(units, places - kept.len())
}

/// Reads the size of a number, in units of 10^-places, from an unsigned text.
pub(crate) fn read_size(size: &[u8], places: usize) -> Result<u64, DecimalFault>
    requires { places ≤ PLACES_MAX }
    ensures { result ≡ limited (size_of places size.now) }
{
    let (whole, fraction) = split_point(size);
    if !are_parts(whole, fraction) {
        return Err(DecimalFault::Format);
    }
    let (kept, past) = fraction.split_at(fraction.len().min(places));
    if !are_zeros(past) {
        return Err(DecimalFault::TooFine);
    }
    let units = units_of(whole, kept, places);
    if units == SIZE_LIMIT {
        return Err(DecimalFault::TooLarge);
    }
    Ok(units)
}
