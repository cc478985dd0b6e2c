//! Bytes that are looked at 64 at a time, as lanes of one vector.

ghost use Rattle.std.specs.Prelude.{◌≡◌, ◌≢◌, ℕ, ◌+◌, ◌<◌, ◌≤◌, length, slice_index};

use std::simd::prelude::*;

/// How many bytes are looked at together.
const LANES: usize = 64;

/// How many zeros come first, as far as whole vectors tell: where it counts fewer than all, either
/// a byte that isn't zero comes next, or fewer bytes than a vector has are left.
pub(crate) fn zeros_by_lanes(bytes: &[u8]) -> usize
    ensures within { result ≤ length bytes.now }
    ensures zeros { (k : ℕ) → k < result → slice_index bytes.now k ≡ 0 }
{
    let mut at = 0;
    while bytes.len() - at >= LANES {
        let zeros = zeros_at(bytes, at);
        if zeros < LANES {
            return at + zeros;
        }
        // a constant step: with `zeros` each load would wait for the count before it
        at += LANES;
    }
    at
}

/// How many bytes come before the first zero, as far as whole vectors tell.
pub(crate) fn nonzeros_by_lanes(bytes: &[u8]) -> usize
    ensures within { result ≤ length bytes.now }
    ensures nonzeros { (k : ℕ) → k < result → slice_index bytes.now k ≢ 0 }
{
    let mut at = 0;
    while bytes.len() - at >= LANES {
        let count = nonzeros_at(bytes, at);
        if count < LANES {
            return at + count;
        }
        at += LANES;
    }
    at
}

/// How many zeros come first among the 64 bytes from a place on.
#[inline]
fn zeros_at(bytes: &[u8], at: usize) -> usize
    requires { at + 64 ≤ length bytes.now }
    ensures few { result ≤ 64 }
    ensures zeros { (k : ℕ) → at ≤ k → k < at + result → slice_index bytes.now k ≡ 0 }
    ensures ends { result < 64 → slice_index bytes.now (at + result) ≢ 0 }
{
    let hits = u8x64::from_slice(&bytes[at..])
        .simd_ne(u8x64::splat(0))
        .to_bitmask();
    if hits == 0 {
        64
    } else {
        hits.trailing_zeros() as usize
    }
}

/// How many of the 64 bytes from a place on come before the first zero.
#[inline]
fn nonzeros_at(bytes: &[u8], at: usize) -> usize
    requires { at + 64 ≤ length bytes.now }
    ensures few { result ≤ 64 }
    ensures nonzeros { (k : ℕ) → at ≤ k → k < at + result → slice_index bytes.now k ≢ 0 }
    ensures ends { result < 64 → slice_index bytes.now (at + result) ≡ 0 }
{
    let hits = u8x64::from_slice(&bytes[at..])
        .simd_eq(u8x64::splat(0))
        .to_bitmask();
    if hits == 0 {
        64
    } else {
        hits.trailing_zeros() as usize
    }
}
