//! Signed integers, read and written (Core Specification 2.0, section 5.2.2).

ghost use Rattle.std.specs.Prelude.{◌≡◌, ℤ, ◌+◌, ◌-◌, ◌<◌, ◌≤◌, ◌^◌, ◌++◌, min, length, take, drop, slice_range, IfSome, IsNone, OnOk, OnErr};
ghost use Rattle.std.specs.Option.{option_map};
ghost use Rattle.wz_bytes.specs.Reading.{NoFront};
ghost use Rattle.wz_bytes.specs.Unsigned.{IsWidth};
ghost use Rattle.wz_bytes.specs.Signed.{IsSigned, IsSignedNumber, last_group, signed_at};
ghost use Rattle.wz_bytes.specs.Shortest.{is_one_group as one_group, low_group as lowest_group, shortest_signed};

use crate::slices::from_place;
use std::alloc::AllocError;

/// Reads the signed integer of `BITS` bits that begins at `at`, and gives it with the place behind
/// it. A spelling may be longer than it has to be, up to the width's greatest length.
pub fn read_signed<const BITS: u32>(bytes: &[u8], at: usize) -> Option<(i64, usize)>
    requires { IsWidth BITS }
    ensures found { IfSome result (λ r. IsSigned BITS (slice_range bytes.now at r.1) r.0) }
    ensures none { IsNone result → NoFront (λ t z. IsSigned BITS t z) (drop at bytes.now) }

    // What the caller knows of the number, and of the place behind it.
    ensures below { IfSome result (λ r. IsSignedNumber BITS r.0) }
    ensures within { IfSome result (λ r. (at < r.1) × (r.1 ≤ length bytes.now)) }

    // The same as an equation, for proofs about longer readings.
    ensures exact { let read = signed_at BITS (drop at bytes.now) in
        option_map (λ r. (r.0, drop r.1 bytes.now)) result ≡ read }
{
    let (value, rest) = signed_front::<BITS>(from_place(bytes, at))?;
    Some((value, bytes.len() - rest.len()))
}

/// The number in front, and the bytes behind it. Most numbers are one byte, which is read at once.
#[inline]
#[tactic(auto, unfolding(crate::specs::Signed::signed_at))]
pub(crate) fn signed_front<const BITS: u32>(bytes: &[u8]) -> Option<(i64, &[u8])>
    requires { IsWidth BITS }
    ensures below { IfSome result (λ r. IsSignedNumber BITS r.0) }
    ensures shorter { IfSome result (λ r. length r.1.now < length bytes.now) }
    ensures exact { option_map (λ r. (r.0, r.1.now)) result ≡ signed_at BITS bytes.now }
{
    match bytes {
        [byte, rest @ ..] if *byte < 128 => {
            let value = last_value(BITS, *byte)?;
            Some((value, rest))
        }
        _ => front(BITS, bytes),
    }
}

/// The number of at most so many bits in front, and the bytes behind it. Each call takes seven bits
/// off.
#[tactic(auto, unfolding(crate::specs::Signed::signed_at))]
fn front(bits: u32, bytes: &[u8]) -> Option<(i64, &[u8])>
    requires least { 1 ≤ bits }
    requires most { bits ≤ 64 }
    ensures below { IfSome result (λ r. IsSignedNumber bits r.0) }
    ensures shorter { IfSome result (λ r. length r.1.now < length bytes.now) }
    ensures exact { option_map (λ r. (r.0, r.1.now)) result ≡ signed_at bits bytes.now }
{
    let [byte, rest @ ..] = bytes else {
        return None;
    };
    if *byte < 128 {
        let value = last_value(bits, *byte)?;
        return Some((value, rest));
    }
    if bits <= 7 {
        return None;
    }
    let (high, rest) = front(bits - 7, rest)?;
    Some((128 * high + i64::from(*byte - 128), rest))
}

/// What a last byte stands for, of which so many bits are used: the others have to be copies of the
/// sign.
fn last_value(bits: u32, byte: u8) -> Option<i64>
    requires least { 1 ≤ bits }
    requires last { byte < 128 }
    ensures below { IfSome result (λ z. IsSignedNumber bits z) }
    ensures exact { result ≡ last_group bits byte }
{
    let half = half_of_group(bits);
    if byte < 64 {
        if byte < half {
            Some(i64::from(byte))
        } else {
            None
        }
    } else if byte >= 128 - half {
        Some(i64::from(byte) - 128)
    } else {
        None
    }
}

/// How many numbers that aren't negative a group holds, of which so many bits are used.
fn half_of_group(bits: u32) -> u8
    requires { 1 ≤ bits }
    ensures { result ≡ min (2 ^ (bits - 1)) 64 }
{
    if bits >= 7 { 64 } else { 1 << (bits - 1) }
}

/// Appends the shortest spelling of `value`.
pub fn put_signed(out: &mut Vec<u8>, value: i64) -> Result<(), AllocError>
    ensures ok { OnOk result (out.new.items ≡ out.old.items ++ shortest_signed value) }
    ensures err { OnErr result (out.new.items ≡ out.old.items) }
{
    let (groups, count) = groups_of(value);
    out.extend_from_slice(&groups[..count])
}

/// The bytes of the shortest spelling, and how many there are.
fn groups_of(value: i64) -> ([u8; 10], usize)
    ensures within { result.1 ≤ 10 }
    ensures groups { take result.1 result.0 ≡ shortest_signed value }
{
    let mut groups = [0; 10];
    let mut count = 0;
    let mut rest = value;
    while !is_one_group(rest) {
        groups[count] = low_group(rest) + 128;
        count += 1;
        rest = rest.div_euclid(128);
    }
    groups[count] = low_group(rest);
    (groups, count + 1)
}

/// Whether seven bits hold the number with its sign.
fn is_one_group(value: i64) -> bool
    ensures { result ≡ one_group value }
{
    -64 <= value && value < 64
}

/// The lowest seven bits, in two's complement.
fn low_group(value: i64) -> u8
    ensures { result ≡ lowest_group value }
{
    value.rem_euclid(128) as u8
}
