//! Whole numbers in digits.
ghost use Rattle.std.specs.Prelude.{◌≡◌, ◌-◌, ◌^◌, IsTrue, min};
ghost use Rattle.blot_decimal.specs.Text.{are_digits, number_of};
ghost use Rattle.blot_console.specs.Forms.{is_number};

/// The most digits of a step's number. This project's rule.
pub(crate) const DIGITS_MAX: usize = 9;

// Whether each byte is a decimal digit.
fn are_digits(word: &[u8]) -> bool
    ensures { result ≡ are_digits word.now }
{
    word.iter().all(|byte| byte.is_ascii_digit())
}

/// Whether a word is one or more digits.
pub(crate) fn is_number(word: &[u8]) -> bool
    ensures { result ≡ is_number word.now }
{
    !word.is_empty() && are_digits(word)
}

/// The number that the digits write, or the largest `u64` where it is larger.
pub(crate) fn number_of(digits: &[u8]) -> u64
    requires { IsTrue (is_number digits.now) }
    ensures { result ≡ min (number_of digits.now) (2 ^ 64 - 1) }
{
    let mut number: u64 = 0;
    for digit in digits {
        number = number
            .saturating_mul(10)
            .saturating_add(u64::from(*digit - b'0'));
    }
    number
}
