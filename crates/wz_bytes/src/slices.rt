//! Pieces of slices.

ghost use Rattle.std.specs.Prelude.{◌≡◌, ◌<◌, length, drop, IsNone};
ghost use Rattle.std.specs.Option.{option_map};
ghost use Rattle.wz_bytes.specs.Forms.{piece_at};

/// The bytes from `at` on, none where it lies behind them.
pub(crate) fn from_place(bytes: &[u8], at: usize) -> &[u8]
    ensures { result.now ≡ drop at bytes.now }
{
    if at < bytes.len() { &bytes[at..] } else { &[] }
}

/// So many bytes in front, and those behind them.
pub(crate) fn piece(bytes: &[u8], n: usize) -> Option<(&[u8], &[u8])>
    ensures none { IsNone result → length bytes.now < n }
    ensures exact { option_map (λ p. (p.0.now, p.1.now)) result ≡ piece_at n bytes.now }
{
    if n > bytes.len() {
        return None;
    }
    Some(bytes.split_at(n))
}
