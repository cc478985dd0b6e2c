//! The contents of each section of the output, as pieces.

ghost use Rattle.std.specs.Prelude.{◌≡◌, ℕ, ◌+◌, ◌-◌, ◌^◌, ◌<◌, ◌++◌, ◌∷◌, [], length, map, Some, IfOk, OnOk};
ghost use Rattle.std.specs.List.{flat_map};
ghost use Rattle.wz_decode_sections.specs.ElementSection.{IsElementSection};
ghost use Rattle.wz_encode.specs.Views.{slot_of};
ghost use Rattle.wz_encode.specs.Limits.{memories_text};
ghost use Rattle.wz_encode.specs.Globals.{globals_text};
ghost use Rattle.wz_encode.specs.Exports.{exports_text};
ghost use Rattle.wz_rewrite.specs.Parts.{output_memories, global_types};
ghost use Rattle.wz_rewrite.specs.Pieces.{OutputPiece, MadePiece, slot_pieces, slots_pieces, elements_pieces};
ghost use Rattle.wz_rewrite.specs.Sources.{source_module, source_state, AreFound};

use crate::made::{export_bytes, global_types, kept_as_is, made, number_bytes, sized_memories};
use crate::piece::Piece;
use crate::pieces::Pieces;
use crate::sources::Sources;
use std::alloc::{AllocError, Global};
use wz_decode_sections::element_spans;
use wz_encode::{DataSlot, put_data, put_elements, put_globals, put_memories};

pub(crate) fn memory_contents<'a>(
    alloc: Global,
    sources: &Sources<'_, 'a>,
) -> Result<Option<Pieces<'a>>, AllocError>
    ensures { let m = source_module sources.now in let o = source_state sources.now in
        IfOk result (λ c. c ≡ Some (MadePiece (memories_text (output_memories m o)) ∷ [])) }
{
    let memories = sized_memories(alloc, sources.input.memories(), sources.snapshot.pages())?;
    let mut bytes = Vec::new(alloc);
    put_memories(&mut bytes, &memories)?;
    made(alloc, bytes)
}

pub(crate) fn global_contents<'a>(
    alloc: Global,
    sources: &Sources<'_, 'a>,
) -> Result<Option<Pieces<'a>>, AllocError>
    requires { length (source_module sources.now).globals
        ≡ length (source_state sources.now).globals }
    ensures { let m = source_module sources.now in let o = source_state sources.now in
        IfOk result (λ c. c ≡ Some (MadePiece (globals_text (global_types m) o.globals) ∷ [])) }
{
    let types = global_types(alloc, sources.input.globals())?;
    let mut bytes = Vec::new(alloc);
    put_globals(&mut bytes, &types, sources.snapshot.globals())?;
    made(alloc, bytes)
}

pub(crate) fn export_contents<'a>(
    alloc: Global,
    sources: &Sources<'_, 'a>,
) -> Result<Option<Pieces<'a>>, AllocError>
    ensures { let o = source_state sources.now in
        IfOk result (λ c. c ≡ Some (MadePiece (exports_text o.exports) ∷ [])) }
{
    let bytes = export_bytes(alloc, sources.kept)?;
    made(alloc, bytes)
}

/// Adds a slot of the data section, and its range behind it.
fn add_slot(alloc: Global, out: &mut Pieces<'_>, slot: DataSlot<'_>) -> Result<(), AllocError>
    ensures { OnOk result (out.new ≡ out.old ++ slot_pieces (slot_of slot.entry)) }
{
    let mut bytes = Vec::new(alloc);
    put_data(&mut bytes, slot)?;
    out.add(Piece::Made(bytes))?;
    match slot {
        DataSlot::Passive(_) | DataSlot::Nothing => Ok(()),
        DataSlot::Head { memory, at, len } => out.add(Piece::Range { memory, at, len }),
    }
}

/// The data section.
pub(crate) fn data_contents<'a>(
    alloc: Global,
    slots: &[DataSlot<'_>],
) -> Result<Option<Pieces<'a>>, AllocError>
    ensures { IfOk result (λ c. c ≡ Some (slots_pieces (map slot_of slots.now))) }
{
    let count = number_bytes(alloc, slots.len() as u64)?;
    let mut pieces = Pieces::new(alloc);
    pieces.add(Piece::Made(count))?;
    for slot in slots {
        add_slot(alloc, &mut pieces, *slot)?;
    }
    Ok(Some(pieces))
}
