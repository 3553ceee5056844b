//! Sums that stay within an `i128`.
ghost use Rattle.std.specs.Prelude.{◌≡◌, ◌+ℤ◌, ◌-ℤ◌};
ghost use Rattle.blot_decimal.specs.Sums.{FitsSum};

/// A sum with one more amount, both in the same units. The caller shows that it fits.
pub fn plus(sum: i128, amount: i128) -> i128
    requires { FitsSum (sum +ℤ amount) }
    ensures { result ≡ sum +ℤ amount }
{
    sum + amount
}

/// The same with an amount taken away.
pub fn minus(sum: i128, amount: i128) -> i128
    requires { FitsSum (sum -ℤ amount) }
    ensures { result ≡ sum -ℤ amount }
{
    sum - amount
}
