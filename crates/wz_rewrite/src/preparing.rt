//! The output of a state that was reached, as pieces.

ghost use Rattle.std.specs.Prelude.{◌≡◌, ℕ, ◌∷◌, [], List, length, map, take, IfOk};
ghost use Rattle.std.specs.List.{All, flat_map};
ghost use Rattle.wz_store.specs.State.{Memory};
ghost use Rattle.wz_module.specs.Meaning.{module_of};
ghost use Rattle.wz_module.specs.Views.{section_of};
ghost use Rattle.wz_rewrite.specs.OutputState.{output_state, HasRanges};
ghost use Rattle.wz_rewrite.specs.Output.{output_bytes};
ghost use Rattle.wz_rewrite.specs.Pieces.{pieces_text, piece_ranges, piece_payloads, kept_payloads, output_pieces};
ghost use Rattle.wz_rewrite.specs.Laws.{SectionsAreInOrder, HasCode, SpellsElements};
ghost use Rattle.wz_rewrite.specs.Sources.{source_module, source_state, AreFound};

use crate::output::Output;
use crate::piece::Piece;
use crate::pieces::Pieces;
use crate::places::add_place;
use crate::sources::{Sources, sources_of};
use std::alloc::{AllocError, Global};
use wz_exports::Kept;
use wz_module::Module;
use wz_snapshot::Recorded;

/// What every module begins with.
const HEADER: [u8; 8] = [0x00, 0x61, 0x73, 0x6D, 0x01, 0x00, 0x00, 0x00];

/// The pieces of the output: the header, and what stands in the place of each section.
fn all_pieces<'a>(alloc: Global, sources: &Sources<'_, 'a>) -> Result<Pieces<'a>, AllocError>
    requires found { AreFound sources.now }
    requires globals { length (source_module sources.now).globals ≡
        length (source_state sources.now).globals }
    requires elements { SpellsElements (source_module sources.now) }
    ensures { let m = source_module sources.now in let o = source_state sources.now in
        IfOk result (λ pieces. pieces ≡ output_pieces m o) }
{
    let mut pieces = Pieces::new(alloc);
    pieces.add(Piece::Made(Vec::from_slice(alloc, &HEADER)?))?;
    let sections = sources.input.sections();
    for section in sections {
        add_place(alloc, &mut pieces, sources, *section)?;
    }
    Ok(pieces)
}

/// The output as pieces: with each range read from the memories of the state that was recorded,
/// they are the output's bytes.
///
/// The ranges are the chosen ones; what the pieces have of the input is just the contents of the
/// sections that stay. Memory is taken for what is written anew alone.
pub fn prepare<'a>(
    alloc: Global,
    module: &Module<'a>,
    snapshot: &Recorded,
    kept: &Kept,
) -> Result<Output<'a>, AllocError>
    requires code { HasCode (module_of «module».now) }
    requires elements { SpellsElements (module_of «module».now) }
    requires globals { length (module_of «module».now).globals ≡ length snapshot.now.globals }

    ensures bytes { let m = module_of «module».now in let r = snapshot.now in
        IfOk result (λ pieces. (memories : List Memory) → HasRanges memories r.segments
        → pieces_text memories pieces ≡ output_bytes m (output_state m r memories kept.now)) }
    ensures ranges { SectionsAreInOrder (module_of «module».now).sections
        → IfOk result (λ pieces. piece_ranges pieces ≡ snapshot.now.segments) }
    ensures kept { let m = module_of «module».now in
        let o = output_state m snapshot.now [] kept.now in
        IfOk result (λ pieces. piece_payloads pieces ≡ kept_payloads m o) }
{
    let sources = sources_of(alloc, module, snapshot, kept)?;
    let pieces = all_pieces(alloc, &sources)?;
    Output::of(alloc, pieces)
}
