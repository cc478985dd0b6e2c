//! Names (Core Specification 2.0, section 5.2.4).

ghost use Rattle.std.specs.Prelude.{◌≡◌};
ghost use Rattle.std.specs.Option.{option_map};
ghost use Rattle.wz_bytes.specs.Forms.{bytes_at};
ghost use Rattle.wz_bytes.specs.Name.{name_at};

use crate::slices::piece;
use crate::unsigned::unsigned_front;
use simdutf8::compat::from_utf8;

/// The name in front, and the bytes behind it.
#[tactic(auto, unfolding(crate::specs::Name::name_at))]
pub(crate) fn front_name(bytes: &[u8]) -> Option<(&str, &[u8])>
    ensures { option_map (λ p. (p.0.now, p.1.now)) result ≡ name_at bytes.now }
{
    let (name, rest) = front_bytes(bytes)?;
    match from_utf8(name) {
        Ok(name) => Some((name, rest)),
        Err(_) => None,
    }
}

/// The vector of bytes in front, and the bytes behind it.
fn front_bytes(bytes: &[u8]) -> Option<(&[u8], &[u8])>
    ensures { option_map (λ p. (p.0.now, p.1.now)) result ≡ bytes_at bytes.now }
{
    let (count, rest) = unsigned_front::<32>(bytes)?;
    piece(rest, count as usize)
}
