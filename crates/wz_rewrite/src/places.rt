//! What stands in the place of each section of the input.

ghost use Rattle.std.specs.Prelude.{◌≡◌, ℕ, ◌-◌, ◌^◌, ◌<◌, ◌++◌, [], length, map, IfOk, OnOk};
ghost use Rattle.wz_module.specs.Views.{section_of};
ghost use Rattle.wz_decode_sections.specs.ElementSection.{IsElementSection};
ghost use Rattle.wz_rewrite.specs.Sections.{brings_elements, brings_datas};
ghost use Rattle.wz_rewrite.specs.Pieces.{contents_pieces, new_elements_pieces, new_datas_pieces};
ghost use Rattle.wz_rewrite.specs.Pieces.{section_pieces, pieces_for};
ghost use Rattle.wz_rewrite.specs.Sources.{source_module, source_state, AreFound};

use crate::contents::{data_contents, export_contents, global_contents, memory_contents};
use crate::elements::{element_contents, new_element_contents};
use crate::made::{kept_as_is, made, number_bytes, section_head};
use crate::piece::Piece;
use crate::pieces::Pieces;
use crate::sources::Sources;
use std::alloc::{AllocError, Global};
use wz_module::Section;

/// The number of data segments, as contents of its own.
fn count_contents<'a>(
    alloc: Global,
    sources: &Sources<'_, 'a>,
) -> Result<Option<Pieces<'a>>, AllocError>
    requires { AreFound sources.now }
    ensures { let m = source_module sources.now in let o = source_state sources.now in
        IfOk result (λ c. c ≡ contents_pieces m o 12 []) }
{
    let bytes = number_bytes(alloc, sources.slots.len() as u64)?;
    made(alloc, bytes)
}

/// The contents of a section that was there; a start has none any more.
fn contents<'a>(
    alloc: Global,
    sources: &Sources<'_, 'a>,
    section: Section<'a>,
) -> Result<Option<Pieces<'a>>, AllocError>
    requires found { AreFound sources.now }
    requires globals { length (source_module sources.now).globals ≡
        length (source_state sources.now).globals }
    requires elements { section.id ≡ 9 →
        IsElementSection section.payload.now (source_module sources.now).elements }
    requires short { length section.payload.now < 2 ^ 32 - 1 }
    ensures { let m = source_module sources.now in let o = source_state sources.now in
        IfOk result (λ c. c ≡ contents_pieces m o section.entry.id section.entry.payload.now) }
{
    match section.id {
        5 => memory_contents(alloc, sources),
        6 => global_contents(alloc, sources),
        7 => export_contents(alloc, sources),
        8 => Ok(None),
        9 => element_contents(alloc, sources, section.payload),
        11 => data_contents(alloc, &sources.slots),
        12 => count_contents(alloc, sources),
        _ => kept_as_is(alloc, section.payload),
    }
}

/// The element section that comes in before the section of this id, where one does.
fn new_elements<'a>(
    alloc: Global,
    sources: &Sources<'_, 'a>,
    id: u8,
) -> Result<Option<Pieces<'a>>, AllocError>
    requires { AreFound sources.now }
    ensures { let m = source_module sources.now in let o = source_state sources.now in
        IfOk result (λ c. c ≡ new_elements_pieces m o id) }
{
    let brings = id == sources.elements_before
        && (sources.lacks_elements && !sources.undeclared.is_empty());
    if brings {
        new_element_contents(alloc, &sources.undeclared)
    } else {
        Ok(None)
    }
}

/// The data section that comes in behind the section of this id, where one does.
fn new_datas<'a>(
    alloc: Global,
    sources: &Sources<'_, 'a>,
    id: u8,
) -> Result<Option<Pieces<'a>>, AllocError>
    requires { AreFound sources.now }
    ensures { let m = source_module sources.now in let o = source_state sources.now in
        IfOk result (λ c. c ≡ new_datas_pieces m o id) }
{
    let chosen = sources.snapshot.segments();
    let brings = id == 10 && (sources.lacks_datas && !chosen.is_empty());
    if brings {
        data_contents(alloc, &sources.slots)
    } else {
        Ok(None)
    }
}

/// Adds a section, where it has contents.
fn add_section<'a>(
    alloc: Global,
    out: &mut Pieces<'a>,
    id: u8,
    contents: Option<Pieces<'a>>,
) -> Result<(), AllocError>
    ensures { OnOk result (out.new ≡ out.old ++ section_pieces id contents.entry) }
{
    let Some(contents) = contents else {
        return Ok(());
    };
    let head = section_head(alloc, id, contents.total())?;
    out.add(Piece::Made(head))?;
    out.append(contents)
}

/// Adds what stands in the place of a section of the input.
pub(crate) fn add_place<'a>(
    alloc: Global,
    out: &mut Pieces<'a>,
    sources: &Sources<'_, 'a>,
    section: Section<'a>,
) -> Result<(), AllocError>
    requires found { AreFound sources.now }
    requires globals { length (source_module sources.now).globals ≡
        length (source_state sources.now).globals }
    requires elements { section.id ≡ 9 →
        IsElementSection section.payload.now (source_module sources.now).elements }
    requires short { length section.payload.now < 2 ^ 32 - 1 }
    ensures { let m = source_module sources.now in let o = source_state sources.now in
        OnOk result (out.new ≡ out.old ++ pieces_for m o (section_of section.entry)) }
{
    let elements = new_elements(alloc, sources, section.id)?;
    add_section(alloc, out, 9, elements)?;
    let own = contents(alloc, sources, section)?;
    add_section(alloc, out, section.id, own)?;
    let datas = new_datas(alloc, sources, section.id)?;
    add_section(alloc, out, 11, datas)
}
