//! Whole numbers and tags in digits.
ghost use Rattle.std.specs.Prelude.{◌≡◌, ◌^◌, ◌-◌, true, min};
ghost use Rattle.std.specs.Char.{is_ascii_digit};
ghost use Rattle.std.specs.List.{list_all};
ghost use Rattle.blot_tag.specs.Bytes.{is_number, number_of, tag_number};

// The most digits of a tag. This project's rule.
const TAG_DIGITS_MAX: usize = 9;

// Whether each byte is a decimal digit.
fn are_digits(bytes: &[u8]) -> bool
    ensures { result ≡ list_all is_ascii_digit bytes.now }
{
    bytes.iter().all(|byte| byte.is_ascii_digit())
}

/// Whether the bytes are one or more decimal digits. FIX 4.4 volume 1, data type "int".
pub fn is_number(bytes: &[u8]) -> bool
    ensures { result ≡ is_number bytes.now }
{
    !bytes.is_empty() && are_digits(bytes)
}

/// The number that the digits write, or the largest `usize` where it is larger.
pub fn number_of(digits: &[u8]) -> usize
    requires { is_number digits.now ≡ true }
    ensures { result ≡ min (number_of digits.now) (2 ^ 64 - 1) }
{
    let mut number: usize = 0;
    for digit in digits {
        number = number
            .saturating_mul(10)
            .saturating_add(usize::from(*digit - b'0'));
    }
    number
}

/// The tag that the bytes write: one to nine digits, the first not `0`.
#[inline(always)]
#[tactic(auto, unfolding(crate::specs::Bytes::tag_number))]
pub(crate) fn tag_number(bytes: &[u8]) -> Option<u32>
    ensures { result ≡ tag_number bytes.now }
{
    if !is_number(bytes) || bytes.len() > TAG_DIGITS_MAX || bytes[0] == b'0' {
        return None;
    }
    Some(number_of(bytes) as u32)
}
