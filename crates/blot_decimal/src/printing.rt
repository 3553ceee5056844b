//! Prints the parts of a number as the shortest decimal.
ghost use Rattle.std.specs.Prelude.{◌≡◌, ◌+◌, ◌-◌, ◌/◌, ◌%◌, ◌^◌, ◌<◌, ◌≤◌, [], ◌∷◌, if◌then◌else◌, Some};
ghost use Rattle.std.specs.Fmt.{DisplaysOnOk};
ghost use Rattle.blot_decimal.specs.Printed.{fraction_digits, behind_point, printed};

use std::fmt;

// The most decimals of a number.
const PLACES_MAX: u32 = 14;

/// Writes a number of units of 10^-places.
#[tactic(auto, using(crate::proofs::PrintLemmas::written_units), unfolding(crate::specs::Printed::printed))]
pub(crate) fn write_units<W: fmt::Write>(
    f: &mut fmt::Formatter<W>,
    units: i64,
    places: u32,
) -> fmt::Result
    requires { places ≤ PLACES_MAX }
    ensures { DisplaysOnOk W.write_str_gives f.old result (Some (printed places units)) f.new }
{
    let one = 10u64.pow(places);
    let size = units.unsigned_abs();
    let (whole, rest) = (size / one, size % one);
    write_sign(f, units < 0)?;
    write!(f, "{whole}")?;
    write_fraction(f, rest, places)
}

/// Writes a number of units of 10^-places, of any size.
#[tactic(auto, using(crate::proofs::PrintLemmas::written_units), unfolding(crate::specs::Printed::printed))]
pub(crate) fn write_wide_units<W: fmt::Write>(
    f: &mut fmt::Formatter<W>,
    units: i128,
    places: u32,
) -> fmt::Result
    requires { places ≤ PLACES_MAX }
    ensures { DisplaysOnOk W.write_str_gives f.old result (Some (printed places units)) f.new }
{
    let one = 10u128.pow(places);
    let size = units.unsigned_abs();
    let (whole, rest) = (size / one, (size % one) as u64);
    write_sign(f, units < 0)?;
    write!(f, "{whole}")?;
    write_fraction(f, rest, places)
}

// Writes a minus sign before a number below zero.
fn write_sign<W: fmt::Write>(f: &mut fmt::Formatter<W>, negative: bool) -> fmt::Result
    ensures { DisplaysOnOk W.write_str_gives f.old result
        (Some (if negative then 45 ∷ [] else [])) f.new }
{
    if negative {
        f.write_char('-')?;
    }
    Ok(())
}

// Writes the decimals of a rest of fewer than 10^places units: a point and the digits as far as
// the last one that isn't 0, or nothing where the rest is 0.
#[tactic(auto, using(crate::proofs::PrintLemmas::written_digits))]
fn write_fraction<W: fmt::Write>(f: &mut fmt::Formatter<W>, rest: u64, places: u32) -> fmt::Result
    requires rest { rest < 10 ^ places }
    requires places { places ≤ PLACES_MAX }
    ensures { DisplaysOnOk W.write_str_gives f.old result
        (Some (behind_point (fraction_digits places rest))) f.new }
{
    if rest == 0 {
        return Ok(());
    }
    f.write_char('.')?;
    write_digits(f, rest, places)
}

// Writes the digits of a rest of fewer than 10^places units, as far as the last one that isn't 0.
#[tactic(auto, using(crate::proofs::PrintLemmas::written_digits))]
fn write_digits<W: fmt::Write>(f: &mut fmt::Formatter<W>, rest: u64, places: u32) -> fmt::Result
    requires rest { rest < 10 ^ places }
    requires places { places ≤ PLACES_MAX }
    ensures { DisplaysOnOk W.write_str_gives f.old result
        (Some (fraction_digits places rest)) f.new }
{
    if rest == 0 {
        return Ok(());
    }
    let (digit, left) = split_digit(rest, places);
    f.write_char(char::from(digit))?;
    write_digits(f, left, places - 1)
}

// The first digit of a rest of fewer than 10^places units, and what is left after it.
#[tactic(auto, using(crate::proofs::PrintLemmas::digit_steps))]
fn split_digit(rest: u64, places: u32) -> (u8, u64)
    requires rest { rest < 10 ^ places }
    requires above { 0 < places }
    requires places { places ≤ PLACES_MAX }
    ensures digit { result.0 ≡ 48 + rest / 10 ^ (places - 1) }
    ensures left { result.1 ≡ rest % 10 ^ (places - 1) }
    ensures digit_range { result.0 < 58 }
    ensures left_range { result.1 < 10 ^ (places - 1) }
{
    let unit = 10u64.pow(places - 1);
    (b'0' + (rest / unit) as u8, rest % unit)
}
