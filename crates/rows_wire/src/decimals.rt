//! Rows of exact numbers: units, and what is printed.

use blot_decimal::{Price, Qty, QtySum, Value};
use std::alloc::AllocError as NoMemory;

/// Shows a row of exact numbers; false for any other.
pub fn answer(shown: &mut String, kind: &str, text: &str, bytes: &[u8]) -> Result<bool, NoMemory> {
    match kind {
        "quantity" => quantity(shown, bytes)?,
        "price" => price(shown, bytes)?,
        "worth" => worth(shown, text)?,
        "units" => units(shown, text)?,
        "sum" => sum(shown, text)?,
        "value" => value(shown, text)?,
        _ => return Ok(false),
    }
    Ok(true)
}

// The quantity of a text: its units of 10^-6, and what is printed.
fn quantity(shown: &mut String, bytes: &[u8]) -> Result<(), NoMemory> {
    match Qty::read(bytes) {
        Ok(qty) => write!(shown, "{} {qty}", qty.units()),
        Err(fault) => write!(shown, "{fault}"),
    }
}

// The price of a text: its units of 10^-8, and what is printed.
fn price(shown: &mut String, bytes: &[u8]) -> Result<(), NoMemory> {
    match Price::read(bytes) {
        Ok(price) => write!(shown, "{} {price}", price.units()),
        Err(fault) => write!(shown, "{fault}"),
    }
}

// What a quantity is worth at a price: units of 10^-14.
fn worth(shown: &mut String, text: &str) -> Result<(), NoMemory> {
    let (qty, price) = text.split_once(" at ").unwrap_or((text, ""));
    match (Qty::read(qty.as_bytes()), Price::read(price.as_bytes())) {
        (Ok(qty), Ok(price)) => write!(shown, "{}", qty.times(price).units()),
        _ => shown.push_str("none"),
    }
}

// What is printed of so many units of a quantity.
fn units(shown: &mut String, text: &str) -> Result<(), NoMemory> {
    match Qty::from_units(text.parse::<u64>().unwrap_or(0)) {
        Some(qty) => write!(shown, "{qty}"),
        None => shown.push_str("none"),
    }
}

// What is printed of so many units of a sum of quantities.
fn sum(shown: &mut String, text: &str) -> Result<(), NoMemory> {
    let sum = QtySum::from_units(text.parse::<i128>().unwrap_or(7));
    write!(shown, "{} {sum}", sum.units())
}

// What is printed of so many units of a value.
fn value(shown: &mut String, text: &str) -> Result<(), NoMemory> {
    let value = Value::from_units(text.parse::<i128>().unwrap_or(7));
    write!(shown, "{} {value}", value.units())
}
