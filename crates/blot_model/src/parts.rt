//! What one part, or one line of an allocation, adds to a position; and how such sums are joined.
ghost use Rattle.std.specs.Prelude.{◌≡◌, ℕ, ◌*◌, ◌^◌, ◌≤◌, ◌+ℤ◌, [], ◌∷◌};
ghost use Rattle.blot_types.specs.Bounds.{BOOK_QTY};
ghost use Rattle.blot_types.specs.Position.{moves_of_line};
ghost use Rattle.blot_model.specs.Sums.{sums_at, joined, IsUpTo, AreUpTo};

use blot_decimal::{QtySum, Value};
use blot_types::{Line, Part, PositionLine, Terms, Text64};

/// What a line moves, of a position: its amounts go from the house account to its own.
pub(crate) fn moves_of_line(
    terms: &Terms,
    line: &Line,
    account: &Text64,
    symbol: &Text64,
) -> Option<PositionLine>
    ensures sums { result ≡ sums_at account.now symbol.now (moves_of_line terms.now line.now) }
    ensures small { AreUpTo (2 * line.now.qty) result }
    ensures range { line.now.qty ≤ 10 ^ 16 }
{
    let part = Part::of_line(terms, line);
    let booked = shown(&part, account, symbol);
    let taken = shown(&part.from_house(), account, symbol);
    joined(booked, taken)
}

/// The sums of one part, where it is of the position of an account in a symbol.
pub(crate) fn shown(part: &Part, account: &Text64, symbol: &Text64) -> Option<PositionLine>
    ensures sums { result ≡ sums_at account.now symbol.now (part.now ∷ []) }
    ensures small { (units : ℕ) → IsUpTo units part.now.qty part.now.value → AreUpTo units result }
{
    if part.account != *account || part.symbol != *symbol {
        return None;
    }
    Some(PositionLine {
        qty: part.qty,
        value: part.value,
    })
}

/// The sums of two lists of parts, where each has its own.
pub(crate) fn joined(
    first: Option<PositionLine>,
    second: Option<PositionLine>,
) -> Option<PositionLine>
    requires first { AreUpTo BOOK_QTY first }
    requires second { AreUpTo BOOK_QTY second }
    ensures { result ≡ joined first second }
{
    match (first, second) {
        (None, sums) => sums,
        (sums, None) => sums,
        (Some(first), Some(second)) => Some(plus(first, second)),
    }
}

// The sums of two lines.
fn plus(first: PositionLine, second: PositionLine) -> PositionLine
    requires first { IsUpTo BOOK_QTY first.qty first.value }
    requires second { IsUpTo BOOK_QTY second.qty second.value }
    ensures { result ≡ record { qty = first.qty +ℤ second.qty; value = first.value +ℤ second.value } }
{
    let qty = first.qty.units() + second.qty.units();
    let value = first.value.units() + second.value.units();
    PositionLine {
        qty: QtySum::from_units(qty),
        value: Value::from_units(value),
    }
}
