//! The bounds of a range.

ghost use Rattle.std.specs.Prelude.{◌≡◌};
ghost use Rattle.wz_bulk.specs.Effects.{within};

/// Whether a range ends within so many places. Places never wrap.
#[inline]
pub(crate) fn ends_within(at: u32, len: u32, size: u64) -> bool
    ensures { result ≡ within at len size }
{
    u64::from(at) + u64::from(len) <= size
}
