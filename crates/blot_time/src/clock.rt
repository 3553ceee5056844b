//! Times of day, by their milliseconds since midnight.
ghost use Rattle.std.specs.Prelude.{◌≡◌, ◌<◌, IfOk};
ghost use Rattle.blot_time.specs.Clock.{clock_of, clock_text, fraction_of, is_fraction};

use crate::TimeFault;
use crate::digits::{are_digits, has_shape, number_of, three_digits, two_digits};

/// The milliseconds of a day.
pub(crate) const DAY_MILLIS: u32 = 86_400_000;

// The fewest digits of a fraction of a second. This project's rule.
const FRACTION_MIN: usize = 3;

// The most digits of a fraction of a second. This project's rule.
const FRACTION_MAX: usize = 9;

/// The milliseconds since midnight that `-HH:MM:SS` names, with a fraction or without.
pub(crate) fn read_clock(text: &[u8]) -> Result<u32, TimeFault>
    ensures value { result ≡ clock_of text.now }
    ensures range { IfOk result (λ millis. millis < DAY_MILLIS) }
{
    if text.len() < 9 {
        return Err(TimeFault::Format);
    }
    let (clock, fraction) = text.split_at(9);
    if !has_shape(clock, b"-00:00:00") {
        return Err(TimeFault::Format);
    }
    let hour = number_of(&clock[1..3]);
    let minute = number_of(&clock[4..6]);
    let second = number_of(&clock[7..9]);
    if hour > 23 || minute > 59 || second > 60 {
        return Err(TimeFault::Format);
    }
    let seconds = (hour * 60 + minute) * 60 + second.min(59);
    Ok(seconds * 1000 + read_fraction(fraction)?)
}

// The thousandths of a second in what stands after the seconds.
#[tactic(auto, unfolding(crate::specs::Clock::fraction_of))]
fn read_fraction(text: &[u8]) -> Result<u32, TimeFault>
    ensures value { result ≡ fraction_of text.now }
    ensures range { IfOk result (λ millis. millis < 1000) }
{
    let Some((point, digits)) = text.split_first() else {
        return Ok(0);
    };
    if !is_fraction(*point, digits) {
        return Err(TimeFault::Format);
    }
    Ok(number_of(&digits[..3]))
}

// Whether a byte and what stands after it are a point and 3 to 9 digits.
fn is_fraction(byte: u8, digits: &[u8]) -> bool
    ensures { result ≡ is_fraction byte digits.now }
{
    byte == b'.'
        && (FRACTION_MIN <= digits.len() && digits.len() <= FRACTION_MAX)
        && are_digits(digits)
}

/// `-HH:MM:SS.sss` of the milliseconds since midnight.
pub(crate) fn write_clock(millis: u32) -> [u8; 13]
    requires { millis < DAY_MILLIS }
    ensures { result ≡ clock_text millis }
{
    let [h1, h0] = two_digits(millis / 3_600_000);
    let [m1, m0] = two_digits(millis / 60_000 % 60);
    let [s1, s0] = two_digits(millis / 1000 % 60);
    let [f2, f1, f0] = three_digits(millis % 1000);
    [b'-', h1, h0, b':', m1, m0, b':', s1, s0, b'.', f2, f1, f0]
}
