//! Pieces of the output.

/// A piece of the output: bytes of the input, bytes that were made, or a range of the memory of a
/// number, by its first place and its length in bytes.
#[derive(Drop)]
pub enum Piece<'a> {
    Kept(&'a [u8]),
    Made(Vec<u8>),
    Range { memory: u32, at: u32, len: u32 },
}
