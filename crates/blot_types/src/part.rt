//! What one execution, or one line of an allocation, adds to a position.
ghost use Rattle.std.specs.Prelude.{◌≡◌, ◌*◌, ◌^◌, ◌≤◌, pos, ◌*ℤ◌, unsigned_abs};
ghost use Rattle.blot_types.specs.Position.{house, signed, account_of, part_of_fill, part_of_line, from_house, IsSmall};

use crate::{Fill, Line, Sign, Terms, Text64};
use blot_decimal::{Price, Qty, QtySum, Value};

/// What one execution, or one line of an allocation, adds to a position.
#[derive(Clone, Copy, Debug, PartialEq, Eq)]
pub struct Part {
    pub account: Text64,
    pub symbol: Text64,
    /// The signed quantity, in units of 10^-6.
    pub qty: QtySum,
    /// The signed quantity times price, in units of 10^-14.
    pub value: Value,
}

impl Part {
    /// What a fill adds, where its chain is named by a live allocation or isn't.
    pub fn of_fill(named: bool, fill: &Fill) -> Part
        ensures part { result ≡ part_of_fill named fill.now }
        ensures small { IsSmall result }
    {
        let (qty, value) = amounts(fill.sign, fill.qty, fill.price);
        Part {
            account: account_of(named, fill),
            symbol: fill.symbol,
            qty,
            value,
        }
    }

    /// What a line of an allocation adds to its account, under the allocation's own symbol and sign.
    pub fn of_line(terms: &Terms, line: &Line) -> Part
        ensures part { result ≡ part_of_line terms.now line.now }
        ensures small { IsSmall result }
    {
        let (qty, value) = amounts(terms.sign, line.qty, line.price);
        Part {
            account: line.account,
            symbol: terms.symbol,
            qty,
            value,
        }
    }

    /// The same amounts, taken from the house account.
    pub fn from_house(&self) -> Part
        requires { IsSmall self.now }
        ensures part { result ≡ from_house self.now }
        ensures small { IsSmall result }
    {
        Part {
            account: house_account(),
            symbol: self.symbol,
            qty: QtySum::from_units(-self.qty.units()),
            value: Value::from_units(-self.value.units()),
        }
    }
}

/// The house account, `*`: what was executed and isn't allocated sits there. This project's rule.
pub fn house_account() -> Text64
    ensures { result ≡ house }
{
    match Text64::read(b"*") {
        Some(house) => house,
        None => unreachable!(),
    }
}

// The account where a fill sits.
fn account_of(named: bool, fill: &Fill) -> Text64
    ensures { result ≡ account_of named fill.now }
{
    match fill.account {
        Some(account) if !named => account,
        _ => house_account(),
    }
}

// A quantity, and that times a price, with the side's sign.
fn amounts(sign: Sign, qty: Qty, price: Price) -> (QtySum, Value)
    ensures qty { result.0 ≡ signed sign (pos qty) }
    ensures value { result.1 ≡ signed sign (pos qty *ℤ price) }
    ensures small_qty { unsigned_abs result.0 ≤ 10 ^ 16 }
    ensures small_value { unsigned_abs result.1 ≤ unsigned_abs result.0 * 10 ^ 16 }
{
    let size = i128::from(qty.units());
    let value = qty.times(price).units();
    match sign {
        Sign::Buy => (QtySum::from_units(size), Value::from_units(value)),
        Sign::Sell => (QtySum::from_units(-size), Value::from_units(-value)),
    }
}
