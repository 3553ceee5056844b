//! Sixteen bytes at once.
ghost use Rattle.std.specs.Prelude.{◌≡◌, ◌+◌, ◌<◌, ◌≤◌, drop, length};
ghost use Rattle.std.specs.List.{position_or_len};
ghost use Rattle.blot_tag.specs.Bytes.{is_soh};

use crate::bytes::{SOH, place_near};
use std::simd::prelude::*;

// How many bytes are looked at together. Most values are shorter.
const LANES: usize = 16;

/// The first place of SOH in the text, or the text's length where it doesn't stand there.
#[inline(always)]
pub(crate) fn place_of_soh(text: &[u8]) -> usize
    ensures { result ≡ position_or_len is_soh text.now }
{
    if text.len() < LANES {
        return place_near(SOH, text);
    }
    let place = place_in_lanes(text);
    if place < LANES {
        return place;
    }
    LANES + place_near(SOH, &text[LANES..])
}

// The first place of SOH among the first sixteen bytes, or no place among them where it stands behind them, if at all.
#[inline(always)]
fn place_in_lanes(text: &[u8]) -> usize
    requires { LANES ≤ length text.now }
    ensures first { result < LANES → result ≡ position_or_len is_soh text.now }
    ensures none { LANES ≤ result → position_or_len is_soh text.now ≡ LANES + position_or_len is_soh (drop LANES text.now) }
{
    let stops = u8x16::from_slice(text).simd_eq(u8x16::splat(SOH));
    stops.to_bitmask().trailing_zeros() as usize
}
