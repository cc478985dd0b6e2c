//! A place in bytes that are read from the front.

ghost use Rattle.std.specs.Prelude.{◌≡◌, ◌<◌, ◌≤◌, ◌+◌, ℕ, List, [], length, take, drop, IfSome, IsNone, IfNone};
ghost use Rattle.wz_bytes.specs.Reading.{NoFront};
ghost use Rattle.wz_bytes.specs.Unsigned.{IsUnsigned, unsigned_at};
ghost use Rattle.wz_bytes.specs.Signed.{IsSigned, signed_at};
ghost use Rattle.wz_bytes.specs.Forms.{IsByte, IsPiece, byte_at, piece_at};
ghost use Rattle.wz_bytes.specs.Name.{IsName, name_at};
ghost use Rattle.wz_bytes.specs.Place.{Place, Moves, Passes};

use crate::names::front_name;
use crate::signed::signed_front;
use crate::slices::piece;
use crate::unsigned::unsigned_front;
use std::marker::Model;

/// A place in bytes that are read from the front. What is read is taken off; where that does not
/// stand there, the cursor stays.
#[derive(Drop)]
pub struct Cursor<'a> {
    total: usize,
    left: &'a [u8],
}

impl<'a> Model for Cursor<'a> {
    ghost use Rattle.std.specs.Prelude.{◌≤◌, length};
    ghost use Rattle.wz_bytes.specs.Place.{Place};

    ghost Value = { Place };

    ghost view = { λ c. record { total = c.total; left = c.left.now } };

    ghost invariant = { λ c. length c.left.now ≤ c.total };
}

impl<'a> Cursor<'a> {
    /// A cursor in front of the bytes.
    pub fn new(bytes: &'a [u8]) -> Cursor<'a>
        ensures { result ≡ record { total = length bytes.now; left = bytes.now } }
    {
        Cursor {
            total: bytes.len(),
            left: bytes,
        }
    }

    /// How many bytes lie before the cursor.
    pub fn at(&self) -> usize
        ensures { result + length self.now.left ≡ self.now.total }
    {
        self.total - self.left.len()
    }

    /// The bytes behind the cursor.
    pub fn left(&self) -> &'a [u8]
        ensures { result.now ≡ self.now.left }
    {
        self.left
    }

    /// Takes one byte.
    pub fn byte(&mut self) -> Option<u8>
        ensures found { IfSome result (λ b. Passes IsByte b self.old self.new) }
        ensures none { IsNone result → self.old.left ≡ [] }
        ensures stays { IfNone result (self.new ≡ self.old) }
        ensures exact { Moves (λ b. b) result self.old self.new (byte_at self.old.left) }
    {
        let (byte, rest) = self.left.split_first()?;
        self.left = rest;
        Some(*byte)
    }

    /// Takes `n` bytes.
    pub fn take(&mut self, n: usize) -> Option<&'a [u8]>
        ensures found { IfSome result (λ p. Passes (IsPiece n) p.now self.old self.new) }
        ensures none { IsNone result → length self.old.left < n }
        ensures stays { IfNone result (self.new ≡ self.old) }
        ensures exact { Moves (λ p. p.now) result self.old self.new (piece_at n self.old.left) }
    {
        let (piece, rest) = piece(self.left, n)?;
        self.left = rest;
        Some(piece)
    }

    /// Takes an unsigned integer of 32 bits.
    pub fn number(&mut self) -> Option<u32>
        ensures found { IfSome result (λ n. Passes (λ t m. IsUnsigned 32 t m) n self.old self.new) }
        ensures none { IsNone result → NoFront (λ t m. IsUnsigned 32 t m) self.old.left }
        ensures stays { IfNone result (self.new ≡ self.old) }
        ensures exact { Moves (λ n. n) result self.old self.new (unsigned_at 32 self.old.left) }
    {
        let (value, rest) = unsigned_front::<32>(self.left)?;
        self.left = rest;
        Some(value as u32)
    }

    /// Takes a signed integer of 32 bits.
    pub fn signed_32(&mut self) -> Option<i32>
        ensures found { IfSome result (λ z. Passes (λ t y. IsSigned 32 t y) z self.old self.new) }
        ensures none { IsNone result → NoFront (λ t y. IsSigned 32 t y) self.old.left }
        ensures stays { IfNone result (self.new ≡ self.old) }
        ensures exact { Moves (λ z. z) result self.old self.new (signed_at 32 self.old.left) }
    {
        let (value, rest) = signed_front::<32>(self.left)?;
        self.left = rest;
        Some(value as i32)
    }

    /// Takes a signed integer of 33 bits, as types of blocks are spelled.
    pub fn signed_33(&mut self) -> Option<i64>
        ensures found { IfSome result (λ z. Passes (λ t y. IsSigned 33 t y) z self.old self.new) }
        ensures none { IsNone result → NoFront (λ t y. IsSigned 33 t y) self.old.left }
        ensures stays { IfNone result (self.new ≡ self.old) }
        ensures exact { Moves (λ z. z) result self.old self.new (signed_at 33 self.old.left) }
    {
        let (value, rest) = signed_front::<33>(self.left)?;
        self.left = rest;
        Some(value)
    }

    /// Takes a signed integer of 64 bits.
    pub fn signed_64(&mut self) -> Option<i64>
        ensures found { IfSome result (λ z. Passes (λ t y. IsSigned 64 t y) z self.old self.new) }
        ensures none { IsNone result → NoFront (λ t y. IsSigned 64 t y) self.old.left }
        ensures stays { IfNone result (self.new ≡ self.old) }
        ensures exact { Moves (λ z. z) result self.old self.new (signed_at 64 self.old.left) }
    {
        let (value, rest) = signed_front::<64>(self.left)?;
        self.left = rest;
        Some(value)
    }

    /// Takes a name.
    pub fn name(&mut self) -> Option<&'a str>
        ensures found { IfSome result (λ name. Passes IsName name.now self.old self.new) }
        ensures none { IsNone result → NoFront IsName self.old.left }
        ensures stays { IfNone result (self.new ≡ self.old) }
        ensures exact { Moves (λ s. s.now) result self.old self.new (name_at self.old.left) }
    {
        let (name, rest) = front_name(self.left)?;
        self.left = rest;
        Some(name)
    }
}
