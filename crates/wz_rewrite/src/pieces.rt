//! A list of pieces.

ghost use Rattle.std.specs.Prelude.{◌≡◌, ◌++◌, [], ◌∷◌, map, OnOk};
ghost use Rattle.wz_rewrite.specs.Pieces.{piece_length, pieces_length};
ghost use Rattle.wz_rewrite.specs.Views.{piece_of};

use crate::piece::Piece;
use std::alloc::{AllocError, Global};
use std::marker::Model;

/// Pieces in their order, which have fewer than 2^64 bytes together.
#[derive(Drop)]
pub(crate) struct Pieces<'a> {
    items: Vec<Piece<'a>>,
    total: u64,
}

impl<'a> Model for Pieces<'a> {
    ghost use Rattle.std.specs.Prelude.{◌≡◌, List, map};
    ghost use Rattle.wz_rewrite.specs.Pieces.{OutputPiece, pieces_length};
    ghost use Rattle.wz_rewrite.specs.Views.{piece_of};

    ghost Value = { List OutputPiece };

    ghost view = { λ p. map piece_of p.items.items };

    ghost invariant = { λ p. p.total ≡ pieces_length (map piece_of p.items.items) };
}

impl<'a> Pieces<'a> {
    pub(crate) fn new(alloc: Global) -> Pieces<'a>
        ensures { result ≡ [] }
    {
        Pieces {
            items: Vec::new(alloc),
            total: 0,
        }
    }

    /// Adds a piece at the end. Bytes that 64 bits don't count are as good as bytes for which there
    /// is no memory.
    pub(crate) fn add(&mut self, piece: Piece<'a>) -> Result<(), AllocError>
        ensures { OnOk result (self.new ≡ self.old ++ piece_of piece.entry ∷ []) }
    {
        let Some(total) = self.total.checked_add(length_of(&piece)) else {
            return Err(AllocError);
        };
        self.items.push(piece)?;
        self.total = total;
        Ok(())
    }

    /// Adds other pieces at the end.
    pub(crate) fn append(&mut self, others: Pieces<'a>) -> Result<(), AllocError>
        ensures { OnOk result (self.new ≡ self.old ++ others.entry) }
    {
        for piece in others.items {
            self.add(piece)?;
        }
        Ok(())
    }

    /// How many bytes the pieces have together.
    pub(crate) fn total(&self) -> u64
        ensures { result ≡ pieces_length self.now }
    {
        self.total
    }

    pub(crate) fn as_slice(&self) -> &[Piece<'a>]
        ensures { map piece_of result.now ≡ self.now }
    {
        self.items.as_slice()
    }
}

/// How many bytes a piece has.
fn length_of(piece: &Piece<'_>) -> u64
    ensures { result ≡ piece_length (piece_of piece.now) }
{
    match piece {
        Piece::Kept(bytes) => bytes.len() as u64,
        Piece::Made(bytes) => bytes.len() as u64,
        Piece::Range { len, .. } => u64::from(*len),
    }
}
