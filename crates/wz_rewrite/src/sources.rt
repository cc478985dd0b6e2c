//! What the contents of the output's sections are made from.

ghost use Rattle.std.specs.Prelude.{◌≡◌, map, IfOk};
ghost use Rattle.wz_module.specs.Views.{section_of};
ghost use Rattle.wz_rewrite.specs.Sections.{lacks, elements_before};
ghost use Rattle.wz_rewrite.specs.Sources.{AreFound};

use crate::dropped::dropped_numbers;
use crate::slots::slots;
use std::alloc::{AllocError, Global};
use wz_encode::DataSlot;
use wz_exports::{Kept, undeclared};
use wz_module::{Module, Section};
use wz_snapshot::Recorded;

/// The input, what was recorded, the kept exports, and what is found out of these once.
#[derive(Drop)]
pub(crate) struct Sources<'p, 'a> {
    pub(crate) input: &'p Module<'a>,
    pub(crate) snapshot: &'p Recorded,
    pub(crate) kept: &'p Kept,
    /// The functions that must be declared anew.
    pub(crate) undeclared: Vec<u32>,
    /// The numbers of the element segments that were dropped.
    pub(crate) dropped: Vec<u32>,
    /// What stands in the data section.
    pub(crate) slots: Vec<DataSlot<'a>>,
    /// The id of the section before which an element section comes in, where one does.
    pub(crate) elements_before: u8,
    pub(crate) lacks_elements: bool,
    pub(crate) lacks_datas: bool,
}

/// Whether there is no section with this id.
pub(crate) fn lacks(sections: &[Section<'_>], id: u8) -> bool
    ensures { result ≡ lacks id (map section_of sections.now) }
{
    for section in sections {
        if section.id == id {
            return false;
        }
    }
    true
}

/// Of data count and code the one that comes first.
fn elements_before(sections: &[Section<'_>]) -> u8
    ensures { result ≡ elements_before (map section_of sections.now) }
{
    if lacks(sections, 12) { 10 } else { 12 }
}

/// Finds out what the output's sections are made from.
pub(crate) fn sources_of<'p, 'a>(
    alloc: Global,
    module: &'p Module<'a>,
    snapshot: &'p Recorded,
    kept: &'p Kept,
) -> Result<Sources<'p, 'a>, AllocError>
    ensures input { IfOk result (λ sources. sources.input.now ≡ «module».now) }
    ensures snapshot { IfOk result (λ sources. sources.snapshot.now ≡ snapshot.now) }
    ensures kept { IfOk result (λ sources. sources.kept.now ≡ kept.now) }
    ensures found { IfOk result AreFound }
{
    let undeclared = undeclared(alloc, module, snapshot, kept)?;
    let dropped = dropped_numbers(alloc, module.elements(), snapshot.empty_elements())?;
    let slots = slots(
        alloc,
        module.datas(),
        snapshot.empty_data(),
        snapshot.segments(),
    )?;
    Ok(Sources {
        input: module,
        snapshot,
        kept,
        undeclared,
        dropped,
        slots,
        elements_before: elements_before(module.sections()),
        lacks_elements: lacks(module.sections(), 9),
        lacks_datas: lacks(module.sections(), 11),
    })
}
