//! Contents of sections that are written anew, and of those that stay.

ghost use Rattle.std.specs.Prelude.{◌≡◌, ◌∷◌, [], length, map, Some, IfOk};
ghost use Rattle.std.specs.List.{zip};
ghost use Rattle.wz_bytes.specs.Shortest.{shortest_unsigned};
ghost use Rattle.wz_encode.specs.Exports.{exports_text};
ghost use Rattle.wz_rewrite.specs.Parts.{memory_of_size};
ghost use Rattle.wz_rewrite.specs.Pieces.{KeptPiece, MadePiece, section_head};

use crate::piece::Piece;
use crate::pieces::Pieces;
use std::alloc::{AllocError, Global};
use wz_bytes::put_unsigned;
use wz_encode::put_export;
use wz_exports::Kept;
use wz_module::GlobalDef;
use wz_types::{GlobalType, Limits, MemType};

/// Contents of one piece that was made.
pub(crate) fn made<'a>(alloc: Global, bytes: Vec<u8>) -> Result<Option<Pieces<'a>>, AllocError>
    ensures { IfOk result (λ contents. contents ≡ Some (MadePiece bytes.items ∷ [])) }
{
    let mut pieces = Pieces::new(alloc);
    pieces.add(Piece::Made(bytes))?;
    Ok(Some(pieces))
}

/// Contents that stay.
pub(crate) fn kept_as_is(alloc: Global, bytes: &[u8]) -> Result<Option<Pieces<'_>>, AllocError>
    ensures { IfOk result (λ contents. contents ≡ Some (KeptPiece bytes.now ∷ [])) }
{
    let mut pieces = Pieces::new(alloc);
    pieces.add(Piece::Kept(bytes))?;
    Ok(Some(pieces))
}

/// A number as a payload of its own.
pub(crate) fn number_bytes(alloc: Global, number: u64) -> Result<Vec<u8>, AllocError>
    ensures { IfOk result (λ bytes. bytes.items ≡ shortest_unsigned number) }
{
    let mut bytes = Vec::new(alloc);
    put_unsigned(&mut bytes, number)?;
    Ok(bytes)
}

/// What a section has in front of its contents: its id and their size.
pub(crate) fn section_head(alloc: Global, id: u8, size: u64) -> Result<Vec<u8>, AllocError>
    ensures { IfOk result (λ bytes. bytes.items ≡ section_head id size) }
{
    let mut bytes = Vec::new(alloc);
    bytes.push(id)?;
    put_unsigned(&mut bytes, size)?;
    Ok(bytes)
}

/// The memories, each with the size that it reached.
pub(crate) fn sized_memories(
    alloc: Global,
    memories: &[MemType],
    pages: &[u32],
) -> Result<Vec<MemType>, AllocError>
    ensures { IfOk result (λ sized. sized.items ≡
        map memory_of_size (zip memories.now pages.now)) }
{
    memories
        .iter()
        .zip(pages)
        .map(|(memory, size)| MemType {
            limits: Limits {
                min: *size,
                max: memory.limits.max,
            },
        })
        .collect(alloc)
}

pub(crate) fn global_types(
    alloc: Global,
    globals: &[GlobalDef],
) -> Result<Vec<GlobalType>, AllocError>
    ensures { IfOk result (λ types. types.items ≡ map (λ global. global.kind) globals.now) }
{
    let mut types = Vec::new(alloc);
    for global in globals {
        types.push(global.kind)?;
    }
    Ok(types)
}

/// The payload of the export section.
pub(crate) fn export_bytes(alloc: Global, kept: &Kept) -> Result<Vec<u8>, AllocError>
    ensures { IfOk result (λ bytes. bytes.items ≡ exports_text kept.now.entries) }
{
    let mut bytes = Vec::new(alloc);
    put_unsigned(&mut bytes, kept.len() as u64)?;
    for at in 0..kept.len() {
        if let Some((name, target)) = kept.entry(at) {
            put_export(&mut bytes, name, target)?;
        }
    }
    Ok(bytes)
}
