//! Lines of messages, piece by piece.

ghost use Rattle.std.specs.Prelude.{◌≡◌, ◌<◌, OnOk, OnErr};
ghost use Rattle.wz_io.specs.World.{Said};
ghost use Rattle.wz_top.specs.Saying.{SaysAll, SaysFirst};
ghost use Rattle.wz_top.specs.Pieces.{piece_words, words_of_pieces};
ghost use Rattle.std.specs.Prelude.{decimal};
ghost use Rattle.wz_top.specs.Texts.{quoted, hex_digit};

use itoa::Buffer;
use wz_io::{Failed, Sink};

/// A part of a line.
#[derive(Clone, Copy)]
pub enum Piece<'t> {
    Words(&'t str),
    /// A number in decimal digits.
    Number(u64),
    /// A name between double quotes.
    Name(&'t str),
    /// A byte in two upper-case hexadecimal digits.
    Byte(u8),
}

/// Puts all the bytes, by as many puts as it takes.
fn put_all<E: Sink>(bytes: &[u8], messages: &mut E) -> Result<(), Failed>
    ensures all { OnOk result (SaysAll bytes.now (E.said messages.old) (E.said messages.new)) }
    ensures some { OnErr result (SaysFirst bytes.now (E.said messages.old) (E.said messages.new)) }
{
    let mut at = 0;
    while at < bytes.len() {
        at += messages.put(&bytes[at..])?;
    }
    Ok(())
}

pub fn put_words<E: Sink>(words: &str, messages: &mut E) -> Result<(), Failed>
    ensures all { OnOk result (SaysAll words.now (E.said messages.old) (E.said messages.new)) }
    ensures some { OnErr result (SaysFirst words.now (E.said messages.old) (E.said messages.new)) }
{
    put_all(words.as_bytes(), messages)
}

fn put_number<E: Sink>(number: u64, messages: &mut E) -> Result<(), Failed>
    ensures all { OnOk result
        (SaysAll (decimal number) (E.said messages.old) (E.said messages.new)) }
    ensures some { OnErr result
        (SaysFirst (decimal number) (E.said messages.old) (E.said messages.new)) }
{
    let mut buffer = Buffer::new();
    put_words(buffer.format(number), messages)
}

fn put_name<E: Sink>(name: &str, messages: &mut E) -> Result<(), Failed>
    ensures all { OnOk result
        (SaysAll (quoted name.now) (E.said messages.old) (E.said messages.new)) }
    ensures some { OnErr result
        (SaysFirst (quoted name.now) (E.said messages.old) (E.said messages.new)) }
{
    put_words("\"", messages)?;
    put_words(name, messages)?;
    put_words("\"", messages)
}

/// The character of a digit below 16.
fn hex_digit(digit: u8) -> u8
    requires { digit < 16 }
    ensures { result ≡ hex_digit digit }
{
    if digit < 10 {
        b'0' + digit
    } else {
        b'A' - 10 + digit
    }
}

fn put_piece<E: Sink>(piece: Piece<'_>, messages: &mut E) -> Result<(), Failed>
    ensures all { OnOk result
        (SaysAll (piece_words piece.entry) (E.said messages.old) (E.said messages.new)) }
    ensures some { OnErr result
        (SaysFirst (piece_words piece.entry) (E.said messages.old) (E.said messages.new)) }
{
    match piece {
        Piece::Words(words) => put_words(words, messages),
        Piece::Number(number) => put_number(number, messages),
        Piece::Name(name) => put_name(name, messages),
        Piece::Byte(byte) => put_all(&[hex_digit(byte / 16), hex_digit(byte % 16)], messages),
    }
}

/// Puts the pieces one behind the other.
pub fn put_pieces<E: Sink>(pieces: &[Piece<'_>], messages: &mut E) -> Result<(), Failed>
    ensures all { OnOk result
        (SaysAll (words_of_pieces pieces.now) (E.said messages.old) (E.said messages.new)) }
    ensures some { OnErr result
        (SaysFirst (words_of_pieces pieces.now) (E.said messages.old) (E.said messages.new)) }
{
    for piece in pieces {
        put_piece(*piece, messages)?;
    }
    Ok(())
}
