//! Bytes looked at in lanes, 32 at a time.
ghost use Rattle.std.specs.Prelude.{◌≡◌, ◌+◌, ◌≤◌, length, ◌==◌, not};
ghost use Rattle.std.specs.List.{list_any};
ghost use Rattle.std.specs.Simd.Lanes.{chunk};
ghost use Rattle.page_layout.specs.Sound.{is_filled};
ghost use Rattle.page_layout.specs.Bytes.{has_zero};

use std::simd::prelude::*;

const LANES: usize = 32;

const FILL: u8 = 0xFF;

// Whether one of the 32 bytes from a place on is another one.
fn has_other(bytes: &[u8], at: usize, byte: u8) -> bool
    requires { at + LANES ≤ length bytes.now }
    ensures { result ≡ list_any (λ b. not (b == byte)) (chunk at LANES bytes.now) }
{
    let lanes = u8x32::from_slice(&bytes[at..]);
    lanes.simd_ne(u8x32::splat(byte)).to_bitmask() != 0
}

// Whether one of the 32 bytes from a place on is this one.
fn has_same(bytes: &[u8], at: usize, byte: u8) -> bool
    requires { at + LANES ≤ length bytes.now }
    ensures { result ≡ list_any (λ b. b == byte) (chunk at LANES bytes.now) }
{
    let lanes = u8x32::from_slice(&bytes[at..]);
    lanes.simd_eq(u8x32::splat(byte)).to_bitmask() != 0
}

// The same as `is_filled`, byte by byte.
#[tactic(auto, unfolding(crate::specs::Sound::is_filled))]
fn is_filled_by_bytes(bytes: &[u8]) -> bool
    ensures { result ≡ is_filled bytes.now }
{
    bytes.iter().all(|byte| *byte == FILL)
}

// The same as `has_zero`, byte by byte.
fn has_zero_by_bytes(bytes: &[u8]) -> bool
    ensures { result ≡ has_zero bytes.now }
{
    bytes.iter().any(|byte| *byte == 0)
}

/// Whether all bytes are FFh.
pub(crate) fn is_filled(bytes: &[u8]) -> bool
    ensures { result ≡ is_filled bytes.now }
{
    let chunks = bytes.len() / LANES;
    for i in 0..chunks {
        if has_other(bytes, i * LANES, FILL) {
            return false;
        }
    }
    is_filled_by_bytes(&bytes[chunks * LANES..])
}

/// Whether a byte is 00h.
pub fn has_zero(bytes: &[u8]) -> bool
    ensures { result ≡ has_zero bytes.now }
{
    let chunks = bytes.len() / LANES;
    for i in 0..chunks {
        if has_same(bytes, i * LANES, 0) {
            return true;
        }
    }
    has_zero_by_bytes(&bytes[chunks * LANES..])
}
