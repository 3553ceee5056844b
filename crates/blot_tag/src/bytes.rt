//! Single bytes in a text.
ghost use Rattle.std.specs.Prelude.{◌≡◌, ◌≤◌, ◌==◌, length};
ghost use Rattle.std.specs.List.{position_or_len};
ghost use Rattle.blot_tag.specs.Bytes.{IsFirstPlace};

use memchr::memchr;

/// The byte that ends each field.
pub(crate) const SOH: u8 = 1;

/// How long CheckSum is: `10=`, three digits and SOH.
pub(crate) const CHECK_SUM_LENGTH: usize = 7;

/// The first place at which the byte stands in the text.
pub(crate) fn find_byte(byte: u8, text: &[u8]) -> Option<usize>
    ensures { IsFirstPlace byte text.now result }
{
    memchr(byte, text)
}

/// The first place at which the byte stands in the text, or the text's length where it doesn't. Over a few bytes this plain
/// loop is quicker than `find_byte`.
#[inline(always)]
pub(crate) fn place_near(byte: u8, text: &[u8]) -> usize
    ensures place { result ≡ position_or_len (λ other. other == byte) text.now }
    ensures within { result ≤ length text.now }
{
    text.iter().take_while(|other| **other != byte).count()
}
