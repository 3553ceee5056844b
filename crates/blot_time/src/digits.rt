//! Digits, and texts of a fixed shape.
ghost use Rattle.std.specs.Prelude.{◌≡◌, ◌+◌, ◌%◌, ◌<◌, ◌≤◌, ◌^◌, IsTrue, length};
ghost use Rattle.std.specs.Char.{is_ascii_digit};
ghost use Rattle.std.specs.List.{list_all};
ghost use Rattle.blot_time.specs.Digits.{fits, stands_for, number, padded};

/// Whether a text has a shape, in which `0` stands for any digit and another byte for itself.
pub(crate) fn has_shape(text: &[u8], shape: &[u8]) -> bool
    ensures { result ≡ fits shape.now text.now }
{
    text.len() == shape.len()
        && shape
            .iter()
            .zip(text)
            .all(|(sign, byte)| stands(*sign, *byte))
}

// Whether a byte is what a sign of a shape stands for.
fn stands(sign: u8, byte: u8) -> bool
    ensures { result ≡ stands_for sign byte }
{
    if sign == b'0' {
        byte.is_ascii_digit()
    } else {
        byte == sign
    }
}

/// Whether a text is digits alone.
pub(crate) fn are_digits(text: &[u8]) -> bool
    ensures { result ≡ list_all is_ascii_digit text.now }
{
    text.iter().all(|byte| byte.is_ascii_digit())
}

/// The number that up to nine digits write.
pub(crate) fn number_of(digits: &[u8]) -> u32
    requires digits { IsTrue (list_all is_ascii_digit digits.now) }
    requires few { length digits.now ≤ 9 }
    ensures value { result ≡ number digits.now }
    ensures below { result < 10 ^ length digits.now }
{
    let mut value = 0;
    for digit in digits {
        value = value * 10 + u32::from(*digit - b'0');
    }
    value
}

/// The last two digits of a number.
pub(crate) fn two_digits(number: u32) -> [u8; 2]
    ensures { result ≡ padded 2 number }
{
    [digit(number / 10), digit(number)]
}

/// The last three digits of a number.
pub(crate) fn three_digits(number: u32) -> [u8; 3]
    ensures { result ≡ padded 3 number }
{
    let [tens, ones] = two_digits(number);
    [digit(number / 100), tens, ones]
}

/// The last four digits of a number.
pub(crate) fn four_digits(number: u32) -> [u8; 4]
    ensures { result ≡ padded 4 number }
{
    let [thousands, hundreds] = two_digits(number / 100);
    let [tens, ones] = two_digits(number);
    [thousands, hundreds, tens, ones]
}

// The last digit of a number.
fn digit(number: u32) -> u8
    ensures { result ≡ 48 + number % 10 }
{
    b'0' + (number % 10) as u8
}
