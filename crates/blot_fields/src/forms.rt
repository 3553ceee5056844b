//! The forms of values, each read without regard to its tag.
ghost use Rattle.std.specs.Prelude.{◌≡◌, ◌<◌, ◌≤◌, ◌^◌, IfOk};
ghost use Rattle.blot_fields.specs.Forms.{number_form, zero_form, decimal_reason, positive_form, time_reason};

use crate::fault::Flaw;
use crate::text::Text;
use blot_decimal::{DecimalFault, Price, Qty};
use blot_tag::{is_number, number_of};
use blot_time::{Day, Moment, TimeFault};
use blot_types::Sign;

/// A type of values that has one form.
pub(crate) trait Form<'a>: Sized {
    ghost use Rattle.std.specs.Prelude.{ℕ, List, Result};
    ghost use Rattle.blot_fields.specs.declared.fault.Flaw.{Flaw};

    ghost form: { List ℕ → Result Self Flaw };

    /// What a value says, or what is wrong with it.
    fn from_value(value: &'a [u8]) -> Result<Self, Flaw>
        ensures { result ≡ form value.now };
}

/// An identifier, an account or a symbol, where it stands.
impl<'a> Form<'a> for Text<'a> {
    ghost use Rattle.blot_fields.specs.Forms.{text_form};

    ghost form = { text_form };

    #[tactic(auto, unfolding(crate::specs::Forms::text_form))]
    fn from_value(value: &'a [u8]) -> Result<Text<'a>, Flaw> {
        Text::read(value).ok_or(Flaw::ValueIncorrect)
    }
}

/// `Y` or `N`.
impl<'a> Form<'a> for bool {
    ghost use Rattle.blot_fields.specs.Forms.{flag_form};

    ghost form = { flag_form };

    #[tactic(auto, unfolding(crate::specs::Forms::flag_form))]
    fn from_value(value: &'a [u8]) -> Result<bool, Flaw> {
        match value {
            b"Y" => Ok(true),
            b"N" => Ok(false),
            _ => Err(Flaw::ValueIncorrect),
        }
    }
}

/// A quantity, 0 among them.
impl<'a> Form<'a> for Qty {
    ghost use Rattle.blot_fields.specs.Forms.{qty_form};

    ghost form = { qty_form };

    #[tactic(auto, unfolding(crate::specs::Forms::qty_form))]
    fn from_value(value: &'a [u8]) -> Result<Qty, Flaw> {
        Qty::read(value).map_err(decimal_reason)
    }
}

impl<'a> Form<'a> for Price {
    ghost use Rattle.blot_fields.specs.Forms.{price_form};

    ghost form = { price_form };

    #[tactic(auto, unfolding(crate::specs::Forms::price_form))]
    fn from_value(value: &'a [u8]) -> Result<Price, Flaw> {
        Price::read(value).map_err(decimal_reason)
    }
}

impl<'a> Form<'a> for Moment {
    ghost use Rattle.blot_fields.specs.Forms.{moment_form};

    ghost form = { moment_form };

    #[tactic(auto, unfolding(crate::specs::Forms::moment_form))]
    fn from_value(value: &'a [u8]) -> Result<Moment, Flaw> {
        Moment::read(value).map_err(time_reason)
    }
}

impl<'a> Form<'a> for Day {
    ghost use Rattle.blot_fields.specs.Forms.{day_form};

    ghost form = { day_form };

    #[tactic(auto, unfolding(crate::specs::Forms::day_form))]
    fn from_value(value: &'a [u8]) -> Result<Day, Flaw> {
        Day::read(value).map_err(time_reason)
    }
}

/// A side as the sign of its quantity. FIX 4.4 volume 4, Side(54); the grouping is this project's rule.
impl<'a> Form<'a> for Sign {
    ghost use Rattle.blot_fields.specs.Forms.{side_form};

    ghost form = { side_form };

    #[tactic(auto, unfolding(crate::specs::Forms::side_form))]
    fn from_value(value: &'a [u8]) -> Result<Sign, Flaw> {
        match value {
            b"1" | b"3" => Ok(Sign::Buy),
            b"2" | b"4" | b"5" | b"6" => Ok(Sign::Sell),
            _ => Err(Flaw::ValueIncorrect),
        }
    }
}

/// A whole number from `low` to `high`.
#[tactic(auto, unfolding(crate::specs::Forms::number_form))]
pub(crate) fn number_form(value: &[u8], low: u64, high: u64) -> Result<u64, Flaw>
    requires { high < 2 ^ 31 }
    ensures value { result ≡ number_form low high value.now }
    ensures range { IfOk result (λ number. number ≤ high) }
{
    if !is_number(value) {
        return Err(Flaw::IncorrectDataFormat);
    }
    let number = number_of(value) as u64;
    if low <= number && number <= high {
        Ok(number)
    } else {
        Err(Flaw::ValueIncorrect)
    }
}

/// `0` alone.
#[tactic(auto, unfolding(crate::specs::Forms::zero_form))]
pub(crate) fn zero_form(value: &[u8]) -> Result<u64, Flaw>
    ensures { result ≡ zero_form value.now }
{
    match value {
        b"0" => Ok(0),
        _ => Err(Flaw::ValueIncorrect),
    }
}

/// A quantity above 0.
#[tactic(auto, unfolding(crate::specs::Forms::positive_form))]
pub(crate) fn positive_form(value: &[u8]) -> Result<Qty, Flaw>
    ensures { result ≡ positive_form value.now }
{
    let qty = Qty::from_value(value)?;
    if qty.units() == 0 {
        return Err(Flaw::ValueIncorrect);
    }
    Ok(qty)
}

// A decimal's fault as the field's.
fn decimal_reason(fault: DecimalFault) -> Flaw
    ensures { result ≡ decimal_reason fault }
{
    match fault {
        DecimalFault::Format => Flaw::IncorrectDataFormat,
        DecimalFault::TooFine | DecimalFault::TooLarge => Flaw::ValueIncorrect,
    }
}

// A time's fault as the field's.
fn time_reason(fault: TimeFault) -> Flaw
    ensures { result ≡ time_reason fault }
{
    match fault {
        TimeFault::Format => Flaw::IncorrectDataFormat,
        TimeFault::NoSuchDate => Flaw::ValueIncorrect,
    }
}
