//! Unsigned integers, read and written (Core Specification 2.0, section 5.2.2).

ghost use Rattle.std.specs.Prelude.{◌≡◌, ◌<◌, ◌≤◌, ◌^◌, ◌++◌, nat_lt, length, take, drop, slice_range, IfSome, IsNone, OnOk, OnErr};
ghost use Rattle.std.specs.Option.{option_map};
ghost use Rattle.wz_bytes.specs.Reading.{NoFront};
ghost use Rattle.wz_bytes.specs.Unsigned.{IsWidth, IsUnsigned, unsigned_at};
ghost use Rattle.wz_bytes.specs.Shortest.{shortest_unsigned};

use crate::slices::from_place;
use std::alloc::AllocError;

/// Reads the unsigned integer of `BITS` bits that begins at `at`, and gives it with the place
/// behind it. A spelling may be longer than it has to be, up to the width's greatest length.
pub fn read_unsigned<const BITS: u32>(bytes: &[u8], at: usize) -> Option<(u64, usize)>
    requires { IsWidth BITS }
    ensures found { IfSome result (λ r. IsUnsigned BITS (slice_range bytes.now at r.1) r.0) }
    ensures none { IsNone result → NoFront (λ t n. IsUnsigned BITS t n) (drop at bytes.now) }

    // What the caller knows of the number, and of the place behind it.
    ensures below { IfSome result (λ r. r.0 < 2 ^ BITS) }
    ensures within { IfSome result (λ r. (at < r.1) × (r.1 ≤ length bytes.now)) }

    // The same as an equation, for proofs about longer readings.
    ensures exact { let read = unsigned_at BITS (drop at bytes.now) in
        option_map (λ r. (r.0, drop r.1 bytes.now)) result ≡ read }
{
    let (value, rest) = unsigned_front::<BITS>(from_place(bytes, at))?;
    Some((value, bytes.len() - rest.len()))
}

/// The number in front, and the bytes behind it. Most numbers are one byte, which is read at once.
#[inline]
#[tactic(auto, using(crate::proofs::Widths::sizes), unfolding(crate::specs::Unsigned::unsigned_at))]
pub(crate) fn unsigned_front<const BITS: u32>(bytes: &[u8]) -> Option<(u64, &[u8])>
    requires { IsWidth BITS }
    ensures below { IfSome result (λ r. r.0 < 2 ^ BITS) }
    ensures shorter { IfSome result (λ r. length r.1.now < length bytes.now) }
    ensures exact { option_map (λ r. (r.0, r.1.now)) result ≡ unsigned_at BITS bytes.now }
{
    match bytes {
        [byte, rest @ ..] if *byte < 128 => Some((u64::from(*byte), rest)),
        _ => front(BITS, bytes),
    }
}

/// The number of at most so many bits in front, and the bytes behind it. Each call takes seven bits
/// off.
#[tactic(auto, using(crate::proofs::Widths::steps), unfolding(crate::specs::Unsigned::unsigned_at))]
fn front(bits: u32, bytes: &[u8]) -> Option<(u64, &[u8])>
    requires { bits ≤ 64 }
    ensures below { IfSome result (λ r. r.0 < 2 ^ bits) }
    ensures shorter { IfSome result (λ r. length r.1.now < length bytes.now) }
    ensures exact { option_map (λ r. (r.0, r.1.now)) result ≡ unsigned_at bits bytes.now }
{
    let [byte, rest @ ..] = bytes else {
        return None;
    };
    let byte = u64::from(*byte);
    if byte < 128 {
        return fits(byte, bits).then_some((byte, rest));
    }
    if bits <= 7 {
        return None;
    }
    let (high, rest) = front(bits - 7, rest)?;
    Some((128 * high + (byte - 128), rest))
}

/// Whether seven bits lie within so many.
fn fits(byte: u64, bits: u32) -> bool
    requires { byte < 128 }
    ensures { result ≡ nat_lt byte (2 ^ bits) }
{
    bits >= 7 || byte < 1 << bits
}

/// Appends the shortest spelling of `value`.
pub fn put_unsigned(out: &mut Vec<u8>, value: u64) -> Result<(), AllocError>
    ensures ok { OnOk result (out.new.items ≡ out.old.items ++ shortest_unsigned value) }
    ensures err { OnErr result (out.new.items ≡ out.old.items) }
{
    let (groups, count) = groups_of(value);
    out.extend_from_slice(&groups[..count])
}

/// The bytes of the shortest spelling, and how many there are.
fn groups_of(value: u64) -> ([u8; 10], usize)
    ensures within { result.1 ≤ 10 }
    ensures groups { take result.1 result.0 ≡ shortest_unsigned value }
{
    let mut groups = [0; 10];
    let mut count = 0;
    let mut rest = value;
    while rest >= 128 {
        groups[count] = (rest % 128) as u8 + 128;
        count += 1;
        rest /= 128;
    }
    groups[count] = rest as u8;
    (groups, count + 1)
}
