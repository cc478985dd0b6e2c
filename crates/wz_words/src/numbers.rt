//! Numbers of decimal digits.

ghost use Rattle.std.specs.Prelude.{◌≡◌};
ghost use Rattle.wz_words.specs.Options.{decimal};
ghost use Rattle.wz_words.specs.Draft.{number_within, next_within};

fn with_digit(number: u64, byte: u8, limit: u64) -> Option<u64>
    ensures { result ≡ next_within limit number byte }
{
    if !byte.is_ascii_digit() {
        return None;
    }
    let sum = number.checked_mul(10)?.checked_add(u64::from(byte - b'0'))?;
    if sum <= limit { Some(sum) } else { None }
}

/// The number that a text spells, where that is at most the limit.
pub fn number_at_most(limit: u64, text: &str) -> Option<u64>
    ensures { result ≡ number_within limit (decimal text.now) }
{
    let digits = text.as_bytes();
    if digits.is_empty() {
        return None;
    }
    let mut number = 0;
    for byte in digits {
        number = with_digit(number, *byte, limit)?;
    }
    Some(number)
}
