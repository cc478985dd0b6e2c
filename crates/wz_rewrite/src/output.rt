//! The output, and writing it.

ghost use Rattle.std.specs.Prelude.{◌≡◌, ◌<◌, ◌≤◌, ◌++◌, [], length, map, take, Ok, IfOk, OnOk, OnErr};
ghost use Rattle.wz_io.specs.World.{World, IsOpen, Rose};
ghost use Rattle.wz_io.specs.Calls.{current_after_transfer};
ghost use Rattle.wz_io.specs.Writing.{WritesAll, WritesSome};
ghost use Rattle.wz_io.specs.declared.files.Side.TheVariants.{Output as OnOutput};
ghost use Rattle.wz_rewrite.specs.OutputState.{HasRange, HasRanges};
ghost use Rattle.wz_rewrite.specs.Pieces.{piece_text, pieces_text, range_of_piece, piece_ranges};
ghost use Rattle.wz_rewrite.specs.Gathering.{Gathers, FailsAmong};
ghost use Rattle.wz_rewrite.specs.Views.{piece_of};

use crate::gathering::{gather_bytes, gather_range};
use crate::piece::Piece;
use crate::pieces::Pieces;
use std::alloc::{AllocError, Global};
use std::marker::Model;
use wz_io::{Failed, Files, write_all};
use wz_linear::Linear;
use wz_store::{Reached, Store};

/// How many bytes are written at once.
const BUFFER_SIZE: usize = 65_536;

/// The output as pieces, with a buffer of 65,536 bytes for writing them. Contracts see it as the
/// list of its pieces.
#[derive(Drop)]
pub struct Output<'a> {
    pieces: Pieces<'a>,
    buffer: Vec<u8>,
}

impl<'a> Model for Output<'a> {
    ghost use Rattle.std.specs.Prelude.{◌≡◌, List, length};
    ghost use Rattle.wz_rewrite.specs.Pieces.{OutputPiece};

    ghost Value = { List OutputPiece };

    ghost view = { λ o. o.pieces };

    ghost invariant = { λ o. length o.buffer.items ≡ 65536 };
}

impl<'a> Output<'a> {
    /// The output of these pieces.
    pub(crate) fn of(alloc: Global, pieces: Pieces<'a>) -> Result<Output<'a>, AllocError>
        ensures { IfOk result (λ output. output ≡ pieces.entry) }
    {
        let buffer = vec![in alloc; 0u8; BUFFER_SIZE]?;
        Ok(Output { pieces, buffer })
    }

    /// The pieces in their order.
    pub fn pieces(&self) -> &[Piece<'a>]
        ensures { map piece_of result.now ≡ self.now }
    {
        self.pieces.as_slice()
    }

    /// Writes all pieces in their order to the output that is open, each range from the memory that
    /// it is one of, and says how many bytes these are. It takes no memory.
    ///
    /// # Errors
    ///
    /// `Failed` comes only where a write failed. Some first bytes were written then, not all.
    pub fn write_to<M: Linear, F: Files>(
        &mut self,
        reached: &Reached<'_, M>,
        files: &mut F,
    ) -> Result<u64, Failed>
        requires opened { IsOpen OnOutput (F.world files.old) }
        requires ranges { HasRanges reached.now.store.memories (piece_ranges self.old) }
        ensures same { self.new ≡ self.old }
        ensures count { let text = pieces_text reached.now.store.memories self.old in
            IfOk result (λ count. count ≡ length text) }
        ensures all { let text = pieces_text reached.now.store.memories self.old in
            OnOk result (WritesAll text (F.world files.old) (F.world files.new)) }
        ensures some { let text = pieces_text reached.now.store.memories self.old in
            OnErr result (WritesSome text (F.world files.old) (F.world files.new)) }
        ensures failed { OnErr result
            (Rose (F.world files.old).faults (F.world files.new).faults) }
        ensures current { (F.world files.new).current
            ≡ current_after_transfer (F.world files.old).current result }
        ensures later { (F.world files.old).faults ≤ (F.world files.new).faults }
        ensures reads { (F.world files.new).reads ≡ (F.world files.old).reads }
    {
        let total = self.pieces.total();
        let buffer = &mut self.buffer;
        write_pieces(self.pieces.as_slice(), buffer, &reached.store, files)?;
        Ok(total)
    }
}

/// Gathers one piece behind the first `filled` bytes of the buffer, and says how many bytes wait.
fn gather_piece<M: Linear, F: Files>(
    piece: &Piece<'_>,
    buffer: &mut [u8],
    filled: usize,
    store: &Store<'_, M>,
    files: &mut F,
) -> Result<usize, Failed>
    requires opened { IsOpen OnOutput (F.world files.old) }
    requires room { filled < length buffer.old }
    requires ranges { HasRanges store.now.memories (range_of_piece (piece_of piece.now)) }
    ensures room { IfOk result (λ left. left < length buffer.new) }
    ensures gathered { let text = piece_text store.now.memories (piece_of piece.now) in
        IfOk result (λ left. Gathers (take filled buffer.old ++ text) (take left buffer.new)
        (F.world files.old) (F.world files.new)) }
    ensures failed { let text = piece_text store.now.memories (piece_of piece.now) in
        OnErr result (FailsAmong (take filled buffer.old ++ text)
        (F.world files.old) (F.world files.new)) }
{
    match piece {
        Piece::Kept(bytes) => gather_bytes(bytes, buffer, filled, files),
        Piece::Made(bytes) => gather_bytes(bytes, buffer, filled, files),
        Piece::Range { memory, at, len } => {
            let Some(memory) = store.memory(*memory) else {
                return Ok(filled);
            };
            gather_range(memory, *at, *len, buffer, filled, files)
        }
    }
}

/// Writes all pieces through the buffer.
fn write_pieces<M: Linear, F: Files>(
    pieces: &[Piece<'_>],
    buffer: &mut [u8],
    store: &Store<'_, M>,
    files: &mut F,
) -> Result<(), Failed>
    requires opened { IsOpen OnOutput (F.world files.old) }
    requires room { 0 < length buffer.old }
    requires ranges { HasRanges store.now.memories (piece_ranges (map piece_of pieces.now)) }
    ensures all { let text = pieces_text store.now.memories (map piece_of pieces.now) in
        OnOk result (Gathers text [] (F.world files.old) (F.world files.new)) }
    ensures some { let text = pieces_text store.now.memories (map piece_of pieces.now) in
        OnErr result (FailsAmong text (F.world files.old) (F.world files.new)) }
{
    let mut filled = 0;
    for piece in pieces {
        filled = gather_piece(piece, buffer, filled, store, files)?;
    }
    write_all(files, &buffer[..filled])
}
